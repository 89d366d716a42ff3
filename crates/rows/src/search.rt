// A search of a channel's rows.
ghost use Rattle.std.specs.Prelude.{◌≡◌, position};
ghost use Rattle.rows.specs.Search.{free, lowest_of, open_count, used};

use channel::channel::Channel;
use channel::row::{Row, Sort};

#[tactic(auto, using(crate::proofs::Chains::first_is))]
pub fn lowest_free(c: Channel) -> Option<usize>
    ensures { result ≡ lowest_of c }
{
    first_free(&c.rows)
}

fn first_free(rows: &[Row]) -> Option<usize>
    ensures { result ≡ position free rows.now }
{
    rows.iter().position(|r| matches!(r.sort, Sort::Free))
}

// A `for`, and no `filter` and `count`: of that chain the compiler keeps the walk where nothing asks for the count.
pub fn count_open(c: Channel) -> u32
    ensures { result ≡ open_count c.rows }
{
    let mut n: u32 = 0;
    for r in &c.rows {
        if in_use(*r) {
            n += 1;
        }
    }
    n
}

fn in_use(r: Row) -> bool
    ensures { result ≡ used r }
{
    !matches!(r.sort, Sort::Free)
}
