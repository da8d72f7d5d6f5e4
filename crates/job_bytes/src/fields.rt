// The table of the head's fields: "bit | field | range | when absent".
ghost use Rattle.std.specs.Prelude.{◌≡◌, ◌∷◌, ◌+◌, ◌<◌, ◌≤◌, length, drop};
ghost use Rattle.job_bytes.specs.JobBytes.{fields};

// A row of the table: a field of so many bytes, its range, and its value when absent.
#[derive(Clone, Copy)]
pub struct Field {
    pub width: usize,
    pub low: usize,
    pub high: usize,
    pub absent: usize,
}

// How many there are, and how many maps they have: one bit each.
pub const FIELDS: usize = 5;

pub const MAPS: usize = 1 << FIELDS;

const TABLE: [Field; FIELDS] = [
    // 0: places
    Field {
        width: 1,
        low: 1,
        high: 64,
        absent: 8,
    },
    // 1: curves
    Field {
        width: 1,
        low: 1,
        high: 64,
        absent: 64,
    },
    // 2: tests
    Field {
        width: 2,
        low: 1,
        high: 256,
        absent: 0,
    },
    // 3: method
    Field {
        width: 1,
        low: 1,
        high: 3,
        absent: 0,
    },
    // 4: booked places (02, wish 5)
    Field {
        width: 1,
        low: 1,
        high: 63,
        absent: 0,
    },
];

// The row of bit j.
pub(crate) fn row(j: usize) -> Field
    requires { j < length fields }
    ensures { (drop j fields ≡ result ∷ drop (j + 1) fields) × (result.width ≤ 8) }
{
    TABLE[j]
}
