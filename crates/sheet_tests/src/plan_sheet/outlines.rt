//! The nodes that have paragraphs, of whole plans.
use crate::plan_sheet::{DEEP, SHARED, THREE_EIGHTS, plan, sheet_of};
use crate::{append, same};
use crib_plan_sheet::Outline;
use refusing_alloc::Refusing;
use std::process::Abort;

// Both branches of the first look lead to a card, node 3, before the next look.
const SHARED_CARD: &str = "plan 1
nodes 7
0 see A:1 2:2
1 play AC 3
2 play AD 3
3 play AH 4
4 see 3:5 g:6
5 play AS end
6 play 2S end
";

// Thirty cards in a row.
const CHAIN: &str = "plan 1
nodes 30
0 play AC 1
1 play 2C 2
2 play 3C 3
3 play 4C 4
4 play 5C 5
5 play 6C 6
6 play 7C 7
7 play 8C 8
8 play 9C 9
9 play TC 10
10 play JC 11
11 play QC 12
12 play KC 13
13 play AD 14
14 play 2D 15
15 play 3D 16
16 play 4D 17
17 play 5D 18
18 play 6D 19
19 play 7D 20
20 play 8D 21
21 play 9D 22
22 play TD 23
23 play JD 24
24 play QD 25
25 play KD 26
26 play AH 27
27 play 2H 28
28 play 3H 29
29 play 4H end
";

// Each node but the first two is led to twice.
const TWICE: &str = "plan 1
nodes 6
0 see A:1 2:2 3:3
1 see A:2 2:3 3:4
2 see A:3 2:4 3:5
3 see A:4 2:5
4 see A:5
5 play KC end
";

// The start leads to no other node.
const ALONE: &str = "plan 1
nodes 6
0 play AC end
1 see A:2 2:3
2 play AD 4
3 play AH end
4 see A:5
5 play AS end
";

// A plan with 21 looks. Each line of the first goes on with a second one.
const LONG: &str = "plan 1
nodes 25
0 see A:1 2:2
1 play AC 3
2 play AD 4
3 see A:5
4 see 3:5 g:6
5 play KC end
6 play KD end
7 see
8 see
9 see
10 see
11 see
12 see
13 see
14 see
15 see
16 see
17 see
18 see
19 see
20 see
21 see
22 see
23 see
24 see
";

// Asserts which nodes of a plan have paragraphs, by the words at the beginnings of these.
fn has_paragraphs(rt: &(impl Abort + AllocGlobal), plan_text: &str, words: &str) {
    let sheet = sheet_of(rt, plan_text, false);
    let mut found = String::new(rt.alloc());
    for line in sheet.as_str().lines() {
        if line.starts_with('[') {
            let (word, _) = line.split_once(' ').expect(rt, "a space");
            append(rt, &mut found, word);
        }
    }
    same(rt, found.as_str(), words);
}

#[test]
fn shared_looks_and_what_is_cut_have_paragraphs(rt: HostRuntime) {
    has_paragraphs(&rt, THREE_EIGHTS, "");
    has_paragraphs(&rt, SHARED, "[3]");
    has_paragraphs(&rt, SHARED_CARD, "[3]");
    has_paragraphs(&rt, CHAIN, "[5][10][15][20][25]");
    has_paragraphs(&rt, DEEP, "[1]");
    has_paragraphs(&rt, TWICE, "[2][3][4]");
    has_paragraphs(&rt, ALONE, "");
    has_paragraphs(&rt, LONG, "[3][4]");
    has_paragraphs(&rt, "plan 1\nnodes 0\n", "");
}

// There are two allocations.
#[test]
fn says_that_memory_ran_out(rt: HostRuntime) {
    let plan = plan(&rt, THREE_EIGHTS);
    for served in 0..3 {
        let heap = Refusing::after(rt.alloc(), served);
        let is_made = Outline::of(&heap, &plan).is_ok();
        same(
            &rt,
            (is_made, heap.has_refused()),
            (served == 2, served < 2),
        );
    }
}
