// The runs, and what each shows.
use crate::call::Call;
use worked_cases::Pair;

// The calls come after others that fill the map, or after none. Wanted is the capacity that the map is asked for.
pub struct Run {
    pub shows: &'static str,
    pub wanted: usize,
    pub before: &'static [Call<Pair>],
    pub calls: &'static [Call<Pair>],
}

// Fills a map of two, and is refused for a shared key or for want of room.
const FILLING: [Call<Pair>; 6] = [
    Call::Insert(Pair {
        first: 1,
        second: 1,
    }),
    Call::Insert(Pair {
        first: 1,
        second: 2,
    }),
    Call::Insert(Pair {
        first: 2,
        second: 2,
    }),
    Call::Insert(Pair {
        first: 3,
        second: 3,
    }),
    Call::Insert(Pair {
        first: 1,
        second: 2,
    }),
    Call::Overwrite(Pair {
        first: 3,
        second: 3,
    }),
];

pub const RUNS: [Run; 4] = [
    Run {
        shows: "Two records displaced, and a freed slot taken again",
        wanted: 2,
        before: &FILLING,
        calls: &[
            Call::Overwrite(Pair {
                first: 1,
                second: 2,
            }),
            Call::Insert(Pair {
                first: 9,
                second: 9,
            }),
        ],
    },
    Run {
        shows: "The first key's match displaced first",
        wanted: 2,
        before: &FILLING,
        calls: &[Call::Overwrite(Pair {
            first: 2,
            second: 1,
        })],
    },
    Run {
        shows: "One record with both keys displaced once",
        wanted: 2,
        before: &FILLING,
        calls: &[Call::Overwrite(Pair {
            first: 1,
            second: 1,
        })],
    },
    Run {
        shows: "No room at all",
        wanted: 0,
        before: &[],
        calls: &[Call::Insert(Pair {
            first: 1,
            second: 1,
        })],
    },
];
