//! Pictures whose coordinates were computed by hand.
//!
//! Call k of n, counted from 1, is at x = 120 + 1050 k / (n + 1), and the state before the first call begins
//! at x = 120. Unit u of a plot that ends at the unit e is at y = 550 - 400 u / e in the plot of the ranges,
//! and at y = 780 - 150 u / e in the plot of the reports.

use super::support::Part::Lines;
use super::support::{
    GRANT_TITLE, Picture, RECTANGLE, count, expect_picture, expect_pictures, picture_of,
    titled_picture_of,
};
use crate::asserts::{assert_same, assert_same_at, assert_that, assert_that_at};
use std::alloc::{AllocError, Global};
use std::process::Abort;

// The stored run of `offset_picture_program`. With 9 calls, each takes 105 pixels. The highest unit is 192,
// and a twentieth above it the space has ended, at 200: a unit is 2 pixels high in the upper plot, and 0.75
// in the lower one.
const STORED: Picture = Picture {
    script: &[Lines(
        1,
        "space 100 nodes 16 index 32
alloc 10
alloc 20
align 16 32
free 1
alloc 60
extend 100
alloc 90
reset
alloc 192
",
    )],
    once: &[
        // units 0 to 10, from 120 + 105 on, for 3 calls
        "<rect x='225' y='530' width='315' height='20' class='edge'><title>grant 1, offset 0, size 10, calls 1-4</title></rect>",
        // units 10 to 30, to the reset
        "<rect x='330' y='490' width='630' height='40' class='edge'><title>grant 2, offset 10, size 20, calls 2-8</title></rect>",
        // units 32 to 48: the first multiple of 32 after unit 30
        "<rect x='435' y='454' width='525' height='32' class='edge'><title>grant 3, offset 32, size 16, calls 3-8</title></rect>",
        // units 48 to 138, in the space that was extended
        "<rect x='855' y='274' width='105' height='180' class='edge'><title>grant 4, offset 48, size 90, calls 7-8</title></rect>",
        // units 0 to 192, to the end of the axis
        "<rect x='1065' y='166' width='105' height='384' class='edge'><title>grant 5, offset 0, size 192, calls 9-end</title></rect>",
        // the refusal is call 5, at 120 + 525
        "<path class='refusal' d='M645 550v12'/>",
        // of its free blocks, of 10, 2 and 52 units, none has 60
        "<rect x='644' y='550' width='3' height='12'><title>call 5: alloc 60, rounded up to 60: no free block is large enough until the space is compacted; largest free region 52, of 64 free</title></rect>",
        // to call 6 the space ends at 100, where y is 350
        "<path class='out' d='M120 150H120V350H750V150H1170V150'/>",
        // free units: 100, 90, 70, 54, 64, 64, 164, 74, 200, 8
        "<path class='free' d='M120 780H120V705H225V712.5H330V727.5H435V739.5H540V732H750V657H855V724.5H960V630H1065V774H1170V780'/>",
        // the classes of these numbers: from 32 on they rise by 4, from 64 on by 8, and from 128 on by 16. So
        // they are 96 = 64 + 4 8, 88 = 64 + 3 8, 64, 52 = 32 + 5 4, 64, 64, 160 = 128 + 2 16, 72 = 64 + 8,
        // 192 = 128 + 4 16, 8. Less 0.75 of each from 780: 708, 714, 732, 741, 732, 732, 660, 726, 636, 774
        "<path class='joined' d='M120 780H120V708H225V714H330V732H435V741H540V732H750V660H855V726H960V636H1065V774H1170V780'/>",
        // the classes of the largest blocks, 100, 90, 70, 52, 52, 52, 152, 62, 200, 8: 96, 88, 64, 52, 52,
        // 52, 144, 60, 192, 8
        "<path class='most' d='M120 780H120V708H225V714H330V732H435V741H750V672H855V735H960V636H1065V774H1170V780'/>",
        ">9 calls on a space of 100 units, extended to 200, with 16 nodes<",
        // grants 1, 2 and 3 are live together, and grants 2, 3 and 4; 192 units of 200 are 96 percent
        ">5 grants, 1 refusal; at most 3 live at once. Most in use: 192 of 200 units, 96.0 percent.<",
        ">Largest free region at the worst moment: 8 units, of 8 free, after 9 calls.<",
        ">the space ends at 200<",
    ],
    counts: &[(RECTANGLE, 6)],
};

// Lives, edges, shares and numbers, also at the bounds between two cases.
const EXAMPLES: [Picture; 10] = [
    // Fragmentation alone. Of 96 units, grants of 32 units each are at 0, 32 and 64, and the first and the
    // third are released: 64 units are free in two blocks of 32. 5 calls: 120 + 175 k. A unit is 150/96
    // pixels high: 96, 64 and 32 units are at 630, 680 and 730, and each of these numbers is the value of a
    // class.
    Picture {
        script: &[Lines(
            1,
            "space 96 nodes 16 index 32\nalloc 32\nalloc 32\nalloc 32\nfree 1\nfree 3\n",
        )],
        once: &[
            "<path class='free' d='M120 780H120V630H295V680H470V730H645V780H820V730H995V680H1170V780'/>",
            "<path class='joined' d='M120 780H120V630H295V680H470V730H645V780H820V730H995V680H1170V780'/>",
            "<path class='most' d='M120 780H120V630H295V680H470V730H645V780H820V730H1170V780'/>",
        ],
        counts: &[],
    },
    // 1 call: it is at 645. The highest unit is 61, and the axis ends at 61 + 3 + 1. 40 is at 550 - 400 40 /
    // 65.
    Picture {
        script: &[Lines(1, "space 1000 nodes 16 index 32\nalloc 61\n")],
        once: &[
            "<rect x='645' y='174.62' width='525' height='375.38' class='edge'>",
            "<path class='grid' d='M120 303.85H1170'/><text class='end' x='112' y='308.85'>40</text>",
            ">the space ends at 1,000<",
        ],
        counts: &[],
    },
    // Three grants, of which two are live at once, twice; the most units are in use at the first of these
    // times.
    Picture {
        script: &[Lines(
            1,
            "space 100 nodes 16 index 32\nalloc 10\nalloc 20\nfree 1\nalloc 5\nfree 2\nfree 3\n",
        )],
        once: &[
            "3 grants, 0 refusals; at most 2 live at once. ",
            "Most in use: 30 of 100 units, 30.0 percent.",
        ],
        counts: &[],
    },
    // 6 calls, at 270, 420, 570, 720, 870 and 1020. A reset ends all lives, and numbers go on. 52, 48 and 96
    // are values of size classes, and so requests for all of a free block are granted.
    Picture {
        script: &[Lines(
            1,
            "space 100 nodes 16 index 32\nalloc 52\nalloc 48\nfree 2\nreset\nalloc 96\nfree 1\n",
        )],
        once: &[
            "<rect x='270' y='342' width='450' height='208' class='edge'><title>grant 1, offset 0, size 52, calls 1-4</title></rect>",
            "<rect x='420' y='150' width='150' height='192' class='edge'><title>grant 2, offset 52, size 48, calls 2-3</title></rect>",
            "<rect x='870' y='166' width='300' height='384' class='edge'><title>grant 3, offset 0, size 96, calls 5-end</title></rect>",
        ],
        counts: &[(RECTANGLE, 3)],
    },
    // A height of 3 pixels has an edge. The plot ends at unit 400, so a unit is a pixel high.
    Picture {
        script: &[Lines(
            1,
            "space 400 nodes 16 index 32\nalloc 3\nalloc 2\nalloc 384\n",
        )],
        once: &[
            "<rect x='382.5' y='547' width='787.5' height='3' class='edge'><title>grant 1, ",
            "<rect x='645' y='545' width='525' height='2'><title>grant 2, ",
        ],
        counts: &[],
    },
    // A width of 3 pixels has an edge: of 349 calls each takes 3 pixels, of 350 calls 2.99. The plot ends at
    // unit 100, and the range of 96 units is 384 high.
    Picture {
        script: &[
            Lines(1, "space 100 nodes 16 index 32\nalloc 96\nfree 1\n"),
            Lines(347, "report\n"),
        ],
        once: &["<rect x='123' y='166' width='3' height='384' class='edge'><title>"],
        counts: &[],
    },
    Picture {
        script: &[
            Lines(1, "space 100 nodes 16 index 32\nalloc 96\nfree 1\n"),
            Lines(348, "report\n"),
        ],
        once: &["<rect x='122.99' y='166' width='2.99' height='384'><title>"],
        counts: &[],
    },
    // The space grows after most units were in use, and the peak has the size of its time.
    Picture {
        script: &[Lines(
            1,
            "space 100 nodes 16 index 32\nalloc 60\nfree 1\nextend 100\nalloc 20\n",
        )],
        once: &[
            ">4 calls on a space of 100 units, extended to 200, with 16 nodes<",
            "Most in use: 60 of 100 units, 60.0 percent.<",
        ],
        counts: &[],
    },
    // A space that is all in use, and not at the node limit.
    Picture {
        script: &[Lines(1, "space 96 nodes 16 index 32\nalloc 96\n")],
        once: &[
            "Most in use: 96 of 96 units, 100.0 percent.<",
            ">Largest free region at the worst moment: 0 units, of 0 free, after 1 call.<",
            "<path class='free' d='M120 780H120V630H645V780H1170V780'/>",
        ],
        counts: &[("At the node limit", 0)],
    },
    // Large numbers and tenths.
    Picture {
        script: &[Lines(1, "space 1000000 nodes 16 index 32\nalloc 957000\n")],
        once: &[
            ">1 call on a space of 1,000,000 units, with 16 nodes<",
            "Most in use: 957,000 of 1,000,000 units, 95.7 percent.<",
            ">the space ends at 1,000,000<",
        ],
        counts: &[],
    },
];

// Scripts at the limits.
const EXTREMES: [Picture; 9] = [
    // The largest space, all free: 4294967295 units are of the class 15 2^28 = 4026531840, at 780 - 150 15/16
    // = 639.37, drawn to a tenth.
    Picture {
        script: &[Lines(1, "space 4294967295 nodes 16 index 32\n")],
        once: &[
            "<path class='free' d='M120 780H120V630H1170V780'/>",
            "<path class='joined' d='M120 780H120V639.3H1170V780'/>",
            "<path class='most' d='M120 780H120V639.3H1170V780'/>",
        ],
        counts: &[],
    },
    // There is one state, all along the axis. 100 free units are the whole height, and 96 of them are 144
    // pixels.
    Picture {
        script: &[Lines(1, "space 100 nodes 16 index 32\n")],
        once: &[
            ">0 calls on a space of 100 units, with 16 nodes<",
            ">0 grants, 0 refusals; at most 0 live at once. Most in use: 0 of 100 units, 0.0 percent.<",
            ">Largest free region at the worst moment: 96 units, of 100 free, after 0 calls.<",
            "<path class='free' d='M120 780H120V630H1170V780'/>",
            "<path class='joined' d='M120 780H120V636H1170V780'/>",
            "<path class='most' d='M120 780H120V636H1170V780'/>",
            // the legend has the only mark of a refusal
            "class='refusal'",
        ],
        counts: &[(RECTANGLE, 0)],
    },
    // Refusals alone. 3 calls are at 382.5, 645 and 907.5; the marks are drawn to a tenth of a pixel.
    Picture {
        script: &[Lines(
            1,
            "space 100 nodes 16 index 32\nalloc 101\nalign 90 64\nalloc 4294967295\n",
        )],
        once: &[
            ">0 grants, 3 refusals; at most 0 live at once. Most in use: 0 of 100 units, 0.0 percent.<",
            "<path class='refusal' d='M382.5 550v12M645 550v12M907.5 550v12'/>",
            // from 96 on the classes rise by 8 to 128, and then by 16; 96 is that of 100
            "<rect x='381' y='550' width='3' height='12'><title>call 1: alloc 101, rounded up to 104: the request is too large for the space; largest free region 96, of 100 free</title></rect>\n",
            // 90 + 64 - 1 = 153
            "<rect x='644' y='550' width='3' height='12'><title>call 2: align 90 64, rounded up to 160: the request is too large for the space; largest free region 96, of 100 free</title></rect>\n",
            // no class is so large
            "<rect x='906' y='550' width='3' height='12'><title>call 3: alloc 4294967295: the request is too large for the space; largest free region 96, of 100 free</title></rect>\n",
        ],
        counts: &[(RECTANGLE, 3)],
    },
    // 40 units, and 40 units after a used block: the first request needs more than both have, the second has
    // too few nodes, and the third is granted. 5 calls: call 4 is at 820, and the report that it found was 40
    // of 80.
    Picture {
        script: &[Lines(
            1,
            "space 100 nodes 5 index 32\nalloc 40\nalloc 20\nfree 1\nalloc 81\nalign 8 2\n",
        )],
        once: &[
            "<rect x='819' y='550' width='3' height='12'><title>call 4: alloc 81, rounded up to 88: too few units are free; largest free region 40, of 80 free</title></rect>\n",
            // 3 blocks, and two more may be needed, where there are fewer than 5
            "<rect x='994' y='550' width='3' height='12'><title>call 5: align 8 2, rounded up to 9: too few nodes are left</title></rect>\n",
        ],
        counts: &[(RECTANGLE, 4)],
    },
    // A space of no units.
    Picture {
        script: &[Lines(1, "space 0 nodes 16 index 32\nalloc 0\nalloc 1\n")],
        once: &[
            ">2 calls on a space of 0 units, with 16 nodes<",
            "Most in use: 0 of 0 units, 0.0 percent.<",
        ],
        counts: &[],
    },
    // A grant of no units is 0.3 pixels high, so that it is seen.
    Picture {
        script: &[Lines(1, "space 100 nodes 16 index 32\nalloc 0\n")],
        once: &[
            "<rect x='645' y='549.7' width='525' height='0.3'><title>grant 1, offset 0, size 0, calls 1-end</title></rect>",
        ],
        counts: &[(RECTANGLE, 1)],
    },
    // The largest space. The highest unit is 4,026,531,840, and the axis ends a twentieth above: the grant is
    // 20/21 of 400 pixels high.
    Picture {
        script: &[Lines(1, "space 4294967295 nodes 16 index 32\nalloc 4026531840\n")],
        once: &[
            ">1 call on a space of 4,294,967,295 units, with 16 nodes<",
            "<rect x='645' y='169.05' width='525' height='380.95' class='edge'>",
            "<path class='grid' d='M120 171.56H1170'/><text class='end' x='112' y='176.56'>4,000,000,000</text>",
        ],
        counts: &[],
    },
    // Two extensions to the largest space: 2^32 - 2 units and 1 more fit, and no other unit.
    Picture {
        script: &[Lines(
            1,
            "space 10 nodes 16 index 32\nextend 4294967284\nextend 1\nextend 1\n",
        )],
        once: &[
            ">3 calls on a space of 10 units, extended to 4,294,967,295, with 16 nodes<",
            ">0 grants, 1 refusal; ",
            "<path class='refusal' d='M907.5 550v12'/>",
            "<title>call 3: extend 1: a space has at most 4294967295 units</title>",
        ],
        counts: &[],
    },
    // With 3 nodes one grant leaves no node, and the report is 0, 0 though 90 units are free. 2 calls: 470
    // and 820.
    Picture {
        script: &[Lines(1, "space 100 nodes 3 index 32\nalloc 10\nalloc 10\n")],
        once: &[
            "<path class='free' d='M120 780H120V630H470V780H1170V780'/>",
            "<path class='joined' d='M120 780H120V636H470V780H1170V780'/>",
            "<path class='refusal' d='M820 550v12'/>",
            "<title>call 2: alloc 10, rounded up to 10: too few nodes are left</title>",
            "Largest free region at the worst moment: 0 units, of 0 free, after 1 call.<",
            "At the node limit, 2 times, 0 units are reported as free.",
        ],
        counts: &[],
    },
];

#[test]
fn draws_examples_computed_by_hand(rt: HostRuntime) {
    expect_picture(&rt, rt.alloc(), &STORED);
    expect_pictures(&rt, rt.alloc(), &EXAMPLES);
    expect_pictures(&rt, rt.alloc(), &EXTREMES);
}

// Titles, and how they are written. A space is in place of what XML 1.0 forbids, and of line ends and tabs.
const TITLES: [(&str, &str); 6] = [
    ("A voxel game", "A voxel game"),
    ("a < b && 'c' > \"d\"", "a &lt; b &amp;&amp; 'c' &gt; \"d\""),
    ("&lt;</title>", "&amp;lt;&lt;/title&gt;"),
    ("", ""),
    ("a\tb\r\nc\0d\u{1f}e\u{fffe}f\u{ffff}", "a b  c d e f "),
    (
        " ~\u{7f}\u{a0}\u{d7ff}\u{e000}\u{fffd}\u{10000}\u{10ffff}",
        " ~\u{7f}\u{a0}\u{d7ff}\u{e000}\u{fffd}\u{10000}\u{10ffff}",
    ),
];

// What a picture begins with, and its heading.
fn start_and_heading(alloc: Global, wanted: &str) -> Result<(String, String), AllocError> {
    let start = format!(in alloc;
        "<svg xmlns='http://www.w3.org/2000/svg' width='1200' height='840' viewBox='0 0 1200 840' role='graphics-document document'>\n<title>{wanted}</title>\n"
    )?;
    let heading = format!(in alloc; "<text class='big' x='24' y='28'>{wanted}</text>\n")?;
    Ok((start, heading))
}

fn expect_title(rt: &impl Abort, alloc: Global, title: &str, wanted: &str) {
    let script = [Lines(1, "space 100 nodes 16 index 32\n")];
    let picture = titled_picture_of(rt, alloc, title, &script);
    let (start, heading) = start_and_heading(alloc, wanted).expect(rt, "memory");
    assert_that_at(rt, &title, picture.starts_with(&start));
    assert_same_at(rt, &title, &count(&picture, &heading), &1);
}

// 85 and 86 letters, three quarters as wide as high each: 255 and 258 quarters. 256 of them are 1152 pixels
// in 18; else the height is 1152 by a quarter of their number: 17.86. 51 and 52 other characters are 255 and
// 260 quarters, and 150 letters are 450.
const LONG: [(&str, &str); 6] = [
    (
        "0123456789012345678901234567890123456789012345678901234567890123456789012345678901234",
        "<text class='big' x='24' y='28'>0123",
    ),
    (
        "01234567890123456789012345678901234567890123456789012345678901234567890123456789012345",
        "<text class='big' x='24' y='28' style='font-size:17.86px'>0123",
    ),
    (
        "éééééééééééééééééééééééééééééééééééééééééééééééééééééééééééééééééééééééééééééééééééééé",
        "<text class='big' x='24' y='28' style='font-size:17.86px'>éé",
    ),
    (
        "空空空空空空空空空空空空空空空空空空空空空空空空空空空空空空空空空空空空空空空空空空空空空空空空空空空",
        "<text class='big' x='24' y='28'>空",
    ),
    (
        "空空空空空空空空空空空空空空空空空空空空空空空空空空空空空空空空空空空空空空空空空空空空空空空空空空空空",
        "<text class='big' x='24' y='28' style='font-size:17.72px'>空",
    ),
    (
        "012345678901234567890123456789012345678901234567890123456789012345678901234567890123456789012345678901234567890123456789012345678901234567890123456789",
        "<text class='big' x='24' y='28' style='font-size:10.24px'>0123",
    ),
];

// A heading of many characters is smaller, and all of it is there.
#[test]
fn a_long_heading_fits(rt: HostRuntime) {
    for (title, wanted) in LONG {
        let picture = titled_picture_of(
            &rt,
            rt.alloc(),
            title,
            &[Lines(1, "space 100 nodes 16 index 32\n")],
        );
        assert_same_at(&rt, &title, &count(&picture, wanted), &1);
        assert_same_at(&rt, &title, &count(&picture, title), &2);
    }
}

// The title comes first, and once more as the heading.
#[test]
fn a_picture_begins_with_its_title(rt: HostRuntime) {
    for (title, wanted) in TITLES {
        expect_title(&rt, rt.alloc(), title, wanted);
    }
}

// The last life of one age, and the first one of the next.
const AGES: [(u32, &str); 14] = [
    (10, "<g class='age1'>\n<rect "),
    (11, "<g class='age2'>\n<rect "),
    (30, "<g class='age2'>\n<rect "),
    (31, "<g class='age3'>\n<rect "),
    (100, "<g class='age3'>\n<rect "),
    (101, "<g class='age4'>\n<rect "),
    (300, "<g class='age4'>\n<rect "),
    (301, "<g class='age5'>\n<rect "),
    (1_000, "<g class='age5'>\n<rect "),
    (1_001, "<g class='age6'>\n<rect "),
    (3_000, "<g class='age6'>\n<rect "),
    (3_001, "<g class='age7'>\n<rect "),
    (10_000, "<g class='age7'>\n<rect "),
    (10_001, "<g class='age8'>\n<rect "),
];

fn expect_age(rt: &impl Abort, alloc: Global, calls: u32, group: &str) {
    let script = [
        Lines(1, "space 100 nodes 16 index 32\nalloc 1\n"),
        Lines(calls.saturating_sub(1), "report\n"),
        Lines(1, "free 1\n"),
    ];
    let picture = picture_of(rt, alloc, &script);
    assert_same_at(rt, &calls, &count(&picture, GRANT_TITLE), &1);
    assert_same_at(rt, &calls, &count(&picture, group), &1);
}

#[test]
fn each_age_ends_at_its_bound(rt: HostRuntime) {
    for (calls, group) in AGES {
        expect_age(&rt, rt.alloc(), calls, group);
    }
}

// Each life has the colour of its age, and the longest lives come first. Two grants of 1 call, and one of 11
// calls.
#[test]
fn groups_grants_by_age(rt: HostRuntime) {
    let picture = picture_of(
        &rt,
        rt.alloc(),
        &[Lines(
            1,
            "space 100 nodes 16 index 32\nalloc 1\nalloc 2\nfree 2\nalloc 3\nfree 3\nreport\nreport\nreport\nreport\nreport\nreport\nfree 1\n",
        )],
    );
    let (_, short) = picture
        .split_once("<g class='age1'>")
        .expect(&rt, "a group");
    assert_same(&rt, &count(short, RECTANGLE), &2);
    let (_, long) = picture
        .split_once("<g class='age2'>")
        .expect(&rt, "a group");
    assert_same(&rt, &count(long, RECTANGLE), &3);
    assert_that(
        &rt,
        long.contains("<title>grant 1, offset 0, size 1, calls 1-12</title>"),
    );
}

// Either is one more call, of which nothing else is drawn.
#[test]
fn draws_a_full_report_as_a_report(rt: HostRuntime) {
    let full = picture_of(
        &rt,
        rt.alloc(),
        &[Lines(1, "space 100 nodes 16 index 32\nalloc 10\nfull\nfree 1\n")],
    );
    let short = picture_of(
        &rt,
        rt.alloc(),
        &[Lines(1, "space 100 nodes 16 index 32\nalloc 10\nreport\nfree 1\n")],
    );
    assert_same(&rt, &full, &short);
    assert_same(&rt, &count(&full, RECTANGLE), &1);
}
