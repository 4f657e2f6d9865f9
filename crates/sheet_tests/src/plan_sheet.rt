//! The sheets of plans, whole.
use crate::{is_front, same};
use crib_plan::{Plan, read_plan};
use crib_plan_sheet::{Outline, put_plan};
use crib_run::Printer;
use crib_text::{Counted, Lines};
use example_texts::joined;
use failing_devices::{Tray, Trouble};
use std::alloc::Global;
use std::io::ErrorKind;
use std::process::Abort;

mod outlines;

/// The owner holds three eights and a two. They lead an eight, and look at the dealer's card. Only plays are shared.
pub(crate) const THREE_EIGHTS: &str = "plan 1
nodes 11
0 play 8D 1
1 see A456789TJQK:8 2:6 3:2
2 play 8H 3
3 see A3456789TJQK:7 2:4
4 play 8S 5
5 play 2S end
6 play 8H 7
7 play 2S 10
8 play 2S 9
9 play 8H 10
10 play 8S end
";

const THREE_EIGHTS_SHEET: &str = "8D, then look:
    A 4-K : 2S 8H 8S
    2     : 8H 2S 8S
    3     : 8H, then look:
        A 3-K : 2S 8S
        2     : 8S 2S
";

/// Both branches of the first look lead to node 3, a look.
pub(crate) const SHARED: &str = "plan 1
nodes 6
0 see A:1 2:2
1 play AC 3
2 play AD 3
3 see 3:4 g:5
4 play AH end
5 play AS end
";

const SHARED_SHEET: &str = "look:
    A : AC, then see [3]
    2 : AD, then see [3]

[3] look:
    3  : AH
    go : AS
";

// Nine cards after a look. No place leads to the last node.
const LONG: &str = "plan 1
nodes 12
0 see A:2 2:1
1 play TC 10
2 play AC 3
3 play 2C 4
4 play 3C 5
5 play 4C 6
6 play 5C 7
7 play 6C 8
8 play 7C 9
9 play 8C 10
10 play 9C end
11 play KC end
";

const LONG_SHEET: &str = "look:
    A : AC 2C 3C 4C, then see [6]
    2 : TC 9C

[6] 5C 6C 7C 8C 9C
";

/// Six looks, each below the one before.
pub(crate) const DEEP: &str = "plan 1
nodes 7
0 see A:1
1 see 2:2
2 see 3:3
3 see 4:4
4 see 5:5
5 see 6:6
6 play KC end
";

const DEEP_SHEET: &str = "look:
    A : see [1]

[1] look:
    2 : look:
        3 : look:
            4 : look:
                5 : look:
                    6 : KC
";

const LEGEND: &str = "
Play a row in order, one card at each of your turns. If none of your cards
fits, say go and stay there. At \"look\", go on in the line of what they show
next: a rank (8-T is 8, 9 or ten), or a go, even after yours: their first in a
count, with a card left. At \"see [n]\", go on in paragraph [n].
";

const IF_SURE: &str = "At the end of a row, or if there is no line, nothing is left to decide, or
your goal is reached: then play as you like.
";

const OTHERWISE: &str = "At the end of a row, if there is no line, or if the next card isn't in your
hand or doesn't fit while another does, the plan states nothing more, nor at a
\"look\" if a card of yours fits. Then play what you think best: you may still
reach your goal.
";

/// The plan that this text spells.
pub(crate) fn plan(rt: &(impl Abort + AllocGlobal), text: &str) -> Plan<Global> {
    let bytes = text.as_bytes();
    assert!(rt; bytes.len() <= 1000);
    let mut lines = Lines::new(bytes).expect(rt, "lines");
    read_plan(rt.alloc(), &mut lines).expect(rt, "a plan")
}

// What is written of the sheet of a plan, sure or not, and whether the device failed. It accepts seven bytes at a call.
fn written(
    rt: &(impl Abort + AllocGlobal),
    plan_text: &str,
    sure: bool,
    trouble: Trouble,
) -> (String, bool) {
    let plan = plan(rt, plan_text);
    let outline = Outline::of(rt.alloc(), &plan).expect(rt, "memory");
    let mut sink = Counted::new(Tray::new(rt.alloc(), 7, trouble));
    let mut page = Printer {
        sink: &mut sink,
        is_cut: false,
    };
    put_plan(&mut page, &plan, &outline, sure);
    let is_cut = page.is_cut;
    let text = String::from_utf8(sink.into_inner().into_bytes()).expect(rt, "text");
    (text, is_cut)
}

/// The sheet of a plan, sure or not.
pub(crate) fn sheet_of(rt: &(impl Abort + AllocGlobal), plan_text: &str, sure: bool) -> String {
    let (text, is_cut) = written(rt, plan_text, sure, Trouble::Never);
    assert!(rt; !is_cut);
    text
}

// Asserts that the sheet of a plan has this text and this end, if the plan is sure or if it is not.
fn has_page(rt: &(impl Abort + AllocGlobal), plan_text: &str, sheet: &str, sure: bool, end: &str) {
    let text = sheet_of(rt, plan_text, sure);
    let wanted = joined(rt.alloc(), &[sheet, LEGEND, end]).expect(rt, "memory");
    same(rt, text.as_str(), wanted.as_str());
}

fn has_sheet(rt: &(impl Abort + AllocGlobal), plan_text: &str, sheet: &str) {
    has_page(rt, plan_text, sheet, false, OTHERWISE);
    has_page(rt, plan_text, sheet, true, IF_SURE);
}

#[test]
fn writes_the_sheets_of_plans(rt: HostRuntime) {
    has_sheet(&rt, THREE_EIGHTS, THREE_EIGHTS_SHEET);
    has_sheet(&rt, SHARED, SHARED_SHEET);
    has_sheet(&rt, LONG, LONG_SHEET);
    has_sheet(&rt, DEEP, DEEP_SHEET);
}

#[test]
fn says_whether_a_card_is_needed(rt: HostRuntime) {
    let plan = "plan 1\nnodes 0\n";
    has_page(&rt, plan, "No card is needed.\n", true, IF_SURE);
    has_page(&rt, plan, "The plan states no card.\n", false, OTHERWISE);
}

// One of the calls of the device fails.
#[test]
fn a_failed_write_leaves_a_front(rt: HostRuntime) {
    let whole = sheet_of(&rt, DEEP, true);
    for call in 1..1000 {
        let trouble = Trouble::At(call, ErrorKind::Other);
        let (text, is_cut) = written(&rt, DEEP, true, trouble);
        if !is_cut {
            same(&rt, text.as_str(), whole.as_str());
            assert!(rt; call > 20);
            return;
        }
        let found = (call, is_front(text.as_str(), whole.as_str()));
        same(&rt, found, (call, true));
    }
    panic!(rt; "a device that always fails");
}
