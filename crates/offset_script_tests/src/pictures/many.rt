//! Pictures of many grants, and of many calls.

use super::support::Part::{Lines, Lives};
use super::support::{GRANT_TITLE, Picture, RECTANGLE, count, expect_pictures, picture_of};
use crate::asserts::{assert_same, assert_that_at};

const PICTURES: [Picture; 5] = [
    // Each grant has its title.
    Picture {
        script: &[
            Lines(1, "space 100000 nodes 131072 index 32\n"),
            Lines(20000, "alloc 1\n"),
        ],
        once: &[],
        counts: &[(RECTANGLE, 20000), (GRANT_TITLE, 20000), ("merged", 0)],
    },
    // A first grant of units 0 to 52 that is live to the end, and then grants of units 52 to 100 that are
    // live for one call. With 40,003 calls one call takes 0.026 pixels. The first grant is at 120.02, and is
    // not merged. All others touch, within a tenth of a pixel: from 120.05, and so from 120, to 1169.97, and
    // so to 1170.
    Picture {
        script: &[
            Lines(1, "space 100 nodes 16 index 32\nalloc 52\n"),
            Lives(48, 2, 20_003),
        ],
        once: &[
            "<g class='age8'>\n<rect x='120.02' y='342' width='1049.98' height='208' class='edge'/>\n</g>",
            "<g class='age1'>\n<rect x='120' y='150' width='1050' height='192' class='edge'/>\n</g>",
            ": 2 rectangles.",
        ],
        counts: &[(RECTANGLE, 2)],
    },
    // The first grant is live to the end, and ends the plot at unit 1,000,000. All others are one unit each,
    // less than a thousandth of a pixel high, and at the same height: from 156.7 to 156.8, drawn 0.3 pixels
    // high. With 41,999 calls one call takes 0.025 pixels.
    //
    // Grants 2 to 20,001 are live for one call each, in calls 2 to 40,001: from 120.05, and so from 120, to
    // 1120.025, and so to 1120.1. Grant 20,002 is live for 100 calls from call 40,002 on: from 1120.05, and
    // so from 1120, to 1122.55, and so to 1122.6. It touches those before, and is of another age. Grant
    // 20,003 is inside it, for 40 calls from call 40,010 on.
    Picture {
        script: &[
            Lines(1, "space 1000000 nodes 16 index 32\nalloc 983040\n"),
            Lives(1, 2, 20_002),
            Lines(1, "alloc 1\n"),
            Lines(7, "report\n"),
            Lines(1, "alloc 1\n"),
            Lines(39, "report\n"),
            Lines(1, "free 20003\n"),
            Lines(51, "report\n"),
            Lines(1, "free 20002\n"),
            Lines(1897, "report\n"),
        ],
        once: &[
            ">41,999 calls on a space of 1,000,000 units, with 16 nodes<",
            "<g class='age1'>\n<rect x='120' y='156.5' width='1000.1' height='0.3'/>\n</g>",
            "<g class='age3'>\n<rect x='1120' y='156.5' width='2.6' height='0.3'/>\n</g>",
            ": 3 rectangles.",
        ],
        counts: &[(RECTANGLE, 3)],
    },
    // Each call takes a twentieth of a pixel: 20,999 calls. Two states lie within one tenth of a pixel. Calls
    // 2 and 3 are at 120.1 and 120.15: fewer units are free for one call. Call 4,000 is at 320, and calls
    // 4,002 and 4,003 are at 320.1 and 320.15: more units are free for one call. Calls 6,000 to 6,002 are at
    // 420, 420.05 and 420.1.
    Picture {
        script: &[
            Lines(1, "space 100 nodes 16 index 32\nreport\nalloc 60\nfree 1\n"),
            Lines(3996, "report\n"),
            Lines(1, "alloc 60\nreport\nfree 2\nalloc 60\n"),
            Lines(1996, "report\n"),
            Lines(3, "alloc 101\n"),
            Lines(14997, "report\n"),
        ],
        once: &[
            ">20,999 calls on a space of 100 units, with 16 nodes<",
            // 100 free units are at 630, and 40 at 720
            "<path class='free' d='M120 780H120V630H120.1V720V630H320V720H320.1V630V720H1170V780'/>",
            // their classes are 96, at 636, and 40
            "<path class='joined' d='M120 780H120V636H120.1V720V636H320V720H320.1V636V720H1170V780'/>",
            "<path class='refusal' d='M420 550v12M420.1 550v12'/>",
            // all three are in one pixel
            "<rect x='419' y='550' width='3' height='12'><title>call 6000: alloc 101, rounded up to 104: the request is too large for the space; largest free region 40, of 40 free; 2 more refused here</title></rect>",
        ],
        counts: &[],
    },
    // Each call takes a fiftieth of a pixel: 52,499 calls. Five states lie within one tenth of a pixel. Those
    // after calls 5 to 9 are at 120.1 to 120.18: 100, 40, 10, 40 and 40 units are free, of which the last is
    // neither the most nor the least.
    Picture {
        script: &[
            Lines(1, "space 100 nodes 16 index 32\n"),
            Lines(5, "report\n"),
            Lines(1, "alloc 60\nalloc 30\nfree 2\nreport\nfree 1\n"),
            Lines(52_489, "report\n"),
        ],
        once: &[
            ">52,499 calls on a space of 100 units, with 16 nodes<",
            // 100 free units are at 630, 40 at 720, and 10 at 765
            "<path class='free' d='M120 780H120V630H120.1V630V765V720H120.2V630H1170V780'/>",
            // their classes are 96, at 636, 40 and 10
            "<path class='joined' d='M120 780H120V636H120.1V636V765V720H120.2V636H1170V780'/>",
            "<path class='most' d='M120 780H120V636H120.1V636V765V720H120.2V636H1170V780'/>",
        ],
        counts: &[],
    },
];

#[test]
fn draws_many_grants(rt: HostRuntime) {
    expect_pictures(&rt, rt.alloc(), &PICTURES);
}

// Each is a fiftieth of a pixel high, and so they are merged.
#[test]
fn merges_20001_grants(rt: HostRuntime) {
    let picture = picture_of(
        &rt,
        rt.alloc(),
        &[
            Lines(1, "space 100000 nodes 131072 index 32\n"),
            Lines(20_001, "alloc 1\n"),
        ],
    );
    let found = count(&picture, RECTANGLE);
    assert_same(&rt, &count(&picture, GRANT_TITLE), &0);
    assert_that_at(&rt, &found, found > 1000 && found < 10_000);
    let thousands = found / 1000;
    let ones = found % 1000;
    let note = format!(in rt.alloc();
        "No titles, and those below 0.1 pixels are merged into their neighbours: {thousands},{ones:03} rectangles."
    ).expect(&rt, "memory");
    assert_same(&rt, &count(&picture, &note), &1);
    assert_same(&rt, &count(&picture, ">20,001 grants, 0 refusals; "), &1);
}
