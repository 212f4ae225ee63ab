//! Ranges of lines, as `docs/PROFILE.md` says under "Lines that are asked for".

use crate::comparing::same;
use off_regions::{LineRange, MOST_RANGES, RangeFault, Ranges};
use std::alloc::Global;
use std::process::Abort;

/// A text that is no list of ranges, and why.
struct FaultRow {
    text: &'static str,
    fault: RangeFault,
}

const FAULTS: &[FaultRow] = &[
    FaultRow {
        text: "",
        fault: RangeFault::BadText { place: 0 },
    },
    FaultRow {
        text: "1",
        fault: RangeFault::BadText { place: 0 },
    },
    FaultRow {
        text: "1:",
        fault: RangeFault::BadText { place: 0 },
    },
    FaultRow {
        text: ":1",
        fault: RangeFault::BadText { place: 0 },
    },
    FaultRow {
        text: ":",
        fault: RangeFault::BadText { place: 0 },
    },
    FaultRow {
        text: "1:2:3",
        fault: RangeFault::BadText { place: 0 },
    },
    FaultRow {
        text: "1-2",
        fault: RangeFault::BadText { place: 0 },
    },
    FaultRow {
        text: " 1:2",
        fault: RangeFault::BadText { place: 0 },
    },
    FaultRow {
        text: "1:2 ",
        fault: RangeFault::BadText { place: 0 },
    },
    FaultRow {
        text: "+1:2",
        fault: RangeFault::BadText { place: 0 },
    },
    FaultRow {
        text: "1:-2",
        fault: RangeFault::BadText { place: 0 },
    },
    FaultRow {
        text: "a:2",
        fault: RangeFault::BadText { place: 0 },
    },
    FaultRow {
        text: "1:2,",
        fault: RangeFault::BadText { place: 4 },
    },
    FaultRow {
        text: ",1:2",
        fault: RangeFault::BadText { place: 0 },
    },
    FaultRow {
        text: "1:2,,3:4",
        fault: RangeFault::BadText { place: 4 },
    },
    FaultRow {
        text: "1:2, 3:4",
        fault: RangeFault::BadText { place: 4 },
    },
    FaultRow {
        text: "1:1234567890",
        fault: RangeFault::BadText { place: 0 },
    },
    FaultRow {
        text: "0000000001:2",
        fault: RangeFault::BadText { place: 0 },
    },
    FaultRow {
        text: "\u{661}:2",
        fault: RangeFault::BadText { place: 0 },
    },
    FaultRow {
        text: "3:2",
        fault: RangeFault::Reversed { place: 0 },
    },
    FaultRow {
        text: "1:2,30:4",
        fault: RangeFault::Reversed { place: 4 },
    },
    FaultRow {
        text: "0:2",
        fault: RangeFault::ZeroLine { place: 0 },
    },
    FaultRow {
        text: "2:0",
        fault: RangeFault::ZeroLine { place: 0 },
    },
    FaultRow {
        text: "0:0",
        fault: RangeFault::ZeroLine { place: 0 },
    },
    FaultRow {
        text: "10:20,1:2,000:7",
        fault: RangeFault::ZeroLine { place: 10 },
    },
    FaultRow {
        text: "0:x",
        fault: RangeFault::BadText { place: 0 },
    },
    FaultRow {
        text: "5:x",
        fault: RangeFault::BadText { place: 0 },
    },
    FaultRow {
        text: "3:2,0:1",
        fault: RangeFault::Reversed { place: 0 },
    },
    FaultRow {
        text: "0:1,x",
        fault: RangeFault::ZeroLine { place: 0 },
    },
    FaultRow {
        text: "1:1,x,0:1",
        fault: RangeFault::BadText { place: 4 },
    },
];

#[test]
fn tells_the_first_fault(rt: HostRuntime) {
    for row in FAULTS {
        let fault = Ranges::parse(rt.alloc(), row.text).err();
        same(&rt, row.text, fault, Some(row.fault));
    }
}

/// So many ranges and something behind them, and how many are read.
const MANY: &[(&str, usize, &str, Result<usize, RangeFault>)] = &[
    ("as many as are allowed", MOST_RANGES, "", Ok(MOST_RANGES)),
    ("one more", MOST_RANGES + 1, "", Err(RangeFault::TooMany)),
    (
        "one more, and a fault behind them",
        MOST_RANGES + 1,
        ",2:1",
        Err(RangeFault::Reversed { place: 16_388 }),
    ),
];

/// A range so many times, and what stands behind.
fn repeated(rt: &impl Abort, alloc: Global, times: usize, behind: &str) -> String {
    let more = times.saturating_sub(1);
    let more = ",1:1".repeat(alloc, more).expect(rt, "memory");
    ["1:1", more.as_str(), behind]
        .concat(alloc)
        .expect(rt, "memory")
}

/// How many ranges a text has.
fn count_of(alloc: Global, text: &str) -> Result<usize, RangeFault> {
    Ok(Ranges::parse(alloc, text)?.as_slice().len())
}

#[test]
fn counts_ranges_in_form(rt: HostRuntime) {
    for case in MANY {
        let (name, times, behind, wanted) = *case;
        let text = repeated(&rt, rt.alloc(), times, behind);
        same(&rt, name, count_of(rt.alloc(), &text), wanted);
    }
}

/// Ranges in form, and the lines that they are.
const IN_FORM: &[(&str, &[LineRange])] = &[
    ("1:1", &[LineRange { first: 1, last: 1 }]),
    (
        "7:9,007:007",
        &[
            LineRange { first: 7, last: 9 },
            LineRange { first: 7, last: 7 },
        ],
    ),
    (
        "4:5,1:999999999",
        &[
            LineRange { first: 4, last: 5 },
            LineRange {
                first: 1,
                last: 999_999_999,
            },
        ],
    ),
    (
        "1:3,2:2,3:4",
        &[
            LineRange { first: 1, last: 3 },
            LineRange { first: 2, last: 2 },
            LineRange { first: 3, last: 4 },
        ],
    ),
];

/// The lines are read, and they are these.
fn are(rt: &impl Abort, name: &str, read: Option<Ranges>, wanted: &[LineRange]) {
    let told = match &read {
        Some(ranges) => Some((ranges.is_empty(), ranges.as_slice())),
        None => None,
    };
    same(rt, name, told, Some((wanted.is_empty(), wanted)));
}

#[test]
fn reads_ranges(rt: HostRuntime) {
    for (text, wanted) in IN_FORM {
        are(&rt, text, Ranges::parse(rt.alloc(), text).ok(), wanted);
    }
}

/// Pairs of lines, and the ranges that they are.
const PAIRS: &[(&str, &[(u32, u32)], &[LineRange])] = &[
    ("no ranges", &[], &[]),
    (
        "two ranges",
        &[(7, 9), (7, 7)],
        &[
            LineRange { first: 7, last: 9 },
            LineRange { first: 7, last: 7 },
        ],
    ),
];

#[test]
fn makes_ranges_of_pairs(rt: HostRuntime) {
    for (name, pairs, wanted) in PAIRS {
        are(&rt, name, Ranges::of(rt.alloc(), pairs).ok(), wanted);
    }
}
