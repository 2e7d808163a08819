use crate::row_ref::RowRef;

/// An iterator over the numbers of a row, from the first to the last.
#[derive(Drop)]
pub struct Entries<'a> {
    row: RowRef<'a>,
    place: usize,
}

impl<'a> Entries<'a> {
    ghost use Rattle.std.specs.Prelude.{◌≡◌};
    ghost use Rattle.fp_rows.specs.Refs.{entries_of};
    ghost use Rattle.fp_rows.specs.Entries.{entries_left};

    pub(crate) fn over(row: RowRef<'a>) -> Entries<'a>
        ensures { entries_left result ≡ entries_of row.entry }
    {
        Entries { row, place: 0 }
    }
}

impl<'a> Iterator for Entries<'a> {
    ghost use Rattle.std.specs.Iterator.{YieldsFirst, item_count};
    ghost use Rattle.fp_rows.specs.Entries.{entries_left};

    type Item = u8;

    ghost next_gives = { YieldsFirst entries_left };

    ghost remaining = { item_count entries_left };

    fn next(&mut self) -> Option<u8> {
        let i = self.place;
        if i < self.row.len() {
            self.place = i + 1;
            return Some(self.row.get(i));
        }
        None
    }
}
