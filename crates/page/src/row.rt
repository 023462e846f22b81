// A row of the page: of a group and a reader.
ghost use Rattle.std.specs.Prelude.{◌≡◌, ◌≤◌, option_map};
ghost use Rattle.rules.specs.Page.{counted};
ghost use Rattle.page.specs.Rows.{row_as};
ghost use Rattle.page.specs.Words.{words_of};

// The samples pending, those held in sets, and their oldest offer time.
#[derive(Clone, Copy, Default)]
pub(crate) struct Row {
    pub pending: u64,
    pub held: u64,
    pub oldest: Option<u64>,
}

impl Row {
    // One sample more, offered at that time: pending or held, by a flag as in the definition; two functions are no plainer.
    pub fn counted(self, pending: bool, time: u64) -> Row
        requires { (self.pending ≤ 512) × (self.held ≤ 512) }
        ensures { row_as result ≡ counted pending time (row_as self) }
    {
        let oldest = Some(self.oldest.map_or(time, |oldest| oldest.min(time)));
        if pending {
            Row {
                pending: self.pending + 1,
                oldest,
                ..self
            }
        } else {
            Row {
                held: self.held + 1,
                oldest,
                ..self
            }
        }
    }
}

// The words of a row. Tag 0: no group is known there; 1: it has no sample, so no oldest time; 2: it has samples.
pub(crate) fn words_of(row: Option<Row>) -> [u64; 4]
    ensures { result ≡ words_of (option_map (λ r. row_as r) row) }
{
    match row {
        None => [0; 4],
        Some(row) => match row.oldest {
            None => [1, row.pending, row.held, 0],
            Some(time) => [2, row.pending, row.held, time],
        },
    }
}
