// Sixteen currencies to begin with.
ghost use Rattle.std.specs.Prelude.{true, ◌≡◌};
ghost use Rattle.kinds.specs.Starter.{starter, apart};

use crate::currency::{Currency, Letters};

pub const STARTER: [Currency; 16] = [
    Currency {
        letters: Letters { bytes: *b"EUR" },
        number: 978,
        minor_unit: 2,
    },
    Currency {
        letters: Letters { bytes: *b"USD" },
        number: 840,
        minor_unit: 2,
    },
    Currency {
        letters: Letters { bytes: *b"GBP" },
        number: 826,
        minor_unit: 2,
    },
    Currency {
        letters: Letters { bytes: *b"CHF" },
        number: 756,
        minor_unit: 2,
    },
    Currency {
        letters: Letters { bytes: *b"SEK" },
        number: 752,
        minor_unit: 2,
    },
    Currency {
        letters: Letters { bytes: *b"NOK" },
        number: 578,
        minor_unit: 2,
    },
    Currency {
        letters: Letters { bytes: *b"DKK" },
        number: 208,
        minor_unit: 2,
    },
    Currency {
        letters: Letters { bytes: *b"PLN" },
        number: 985,
        minor_unit: 2,
    },
    Currency {
        letters: Letters { bytes: *b"CZK" },
        number: 203,
        minor_unit: 2,
    },
    Currency {
        letters: Letters { bytes: *b"HUF" },
        number: 348,
        minor_unit: 2,
    },
    Currency {
        letters: Letters { bytes: *b"ISK" },
        number: 352,
        minor_unit: 0,
    },
    Currency {
        letters: Letters { bytes: *b"TRY" },
        number: 949,
        minor_unit: 2,
    },
    Currency {
        letters: Letters { bytes: *b"CAD" },
        number: 124,
        minor_unit: 2,
    },
    Currency {
        letters: Letters { bytes: *b"JPY" },
        number: 392,
        minor_unit: 0,
    },
    Currency {
        letters: Letters { bytes: *b"KWD" },
        number: 414,
        minor_unit: 3,
    },
    Currency {
        letters: Letters { bytes: *b"BHD" },
        number: 48,
        minor_unit: 3,
    },
];

// The whole list, in order. No two of its rows share a key.
pub fn starter_list() -> [Currency; 16]
    ensures list { result ≡ starter }
    ensures distinct { apart result ≡ true }
{
    STARTER
}
