// An HRESULT, as messages carry it.
ghost use Rattle.std.specs.Prelude.{◌≡◌};
ghost use Rattle.words.specs.Hresult.{succeeded};

// Success is the top bit clear (01 "Completions").
pub fn is_success(value: u32) -> bool
    ensures { result ≡ succeeded value }
{
    value < 0x8000_0000
}
