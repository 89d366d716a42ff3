// A row: free, or an open request.
ghost use Rattle.std.specs.Prelude.{◌≡◌};
ghost use Rattle.channel.specs.Rows.{marked_open, marked_row};

use header::ids::RequestId;

// An open request: its id, the journal number of its entry, the size that its completion is held to, and whether a cancel has marked it (02 R-2).
#[derive(Clone, Copy)]
pub struct Open {
    pub request: RequestId,
    pub number: u32,
    pub size: u32,
    pub marked: bool,
}

// Free or in use is told by the sort alone, never by a number or a mark. Three sorts beside nothing, and no Option of one: a match decides all four.
#[derive(Clone, Copy)]
pub enum Sort {
    Free,
    Io(Open),
    In(Open),
    Out(Open),
}

#[derive(Clone, Copy)]
pub struct Row {
    pub sort: Sort,
}

impl Row {
    pub const FREE: Row = Row { sort: Sort::Free };
}

fn mark_open(o: Open) -> Open
    ensures { result ≡ marked_open o }
{
    Open { marked: true, ..o }
}

// The row with its request marked and all else as it was; a free row has nothing to mark.
pub(crate) fn mark(row: Row) -> Row
    ensures { result ≡ marked_row row }
{
    let sort = match row.sort {
        Sort::Free => Sort::Free,
        Sort::Io(o) => Sort::Io(mark_open(o)),
        Sort::In(o) => Sort::In(mark_open(o)),
        Sort::Out(o) => Sort::Out(mark_open(o)),
    };
    Row { sort }
}
