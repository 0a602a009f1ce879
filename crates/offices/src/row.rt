// A row of a table: an office has waived a rule's findings in a block. The derived order is that of a table's rows: by office, then id, then key.
ghost use Rattle.std.specs.Prelude.{◌≡◌};
ghost use Rattle.std.specs.Ordering.{partial_lt};
ghost use Rattle.definitions.specs.Offices.{waiver_of, row_before};

#[derive(Clone, Copy, PartialEq, Eq, PartialOrd, Ord)]
pub struct WaiverRow {
    pub office: u32,
    pub id: u32,
    pub key: u32,
}

impl WaiverRow {
    // The first number that differs decides, so the later ones are not read: the derived order reads all three of both rows, and with it alone a full table
    // took a third longer to check and to search.
    pub fn comes_before(self, other: WaiverRow) -> bool
        ensures defined { result ≡ row_before (waiver_of self.office self.id self.key) (waiver_of other.office other.id other.key) }
        ensures derived { result ≡ partial_lt ⟦<WaiverRow as PartialOrd>⟧.partial_cmp self other }
    {
        if self.office < other.office {
            return true;
        }
        if self.office != other.office {
            return false;
        }
        if self.id < other.id {
            return true;
        }
        if self.id != other.id {
            return false;
        }
        self < other
    }
}
