use schedule_chart::Chart;
use std::alloc::Global;
use std::process::Abort;

/// A schedule with its report in it.
const FOLLOWED: &str = "\
powers 1 1 1 1
clients 8
liars 0
value E
#    0 v1 proposal 0 0 -1 E
send 7 61
#    1 c7 tx 1 61
vote 0 3 prevote 0 0 E
#    v3 refuses 7
deliver 0 3
#    2 v3 prevote 0 0 E
pass
#    v2 decides 0 0 E
restart 2
#    v1 at 0 0:
";

/// The diagram of this text.
fn drawn(rt: &impl Abort, alloc: Global, text: &[u8]) -> String {
    let chart = Chart::read(alloc, text).expect(rt, "the chart is read");
    format!(in alloc; "{chart}").expect(rt, "no memory")
}

/// The diagram has this part.
fn assert_has(rt: &impl Abort, diagram: &str, part: &str) {
    assert!(rt; diagram.contains(part), "{part} in {diagram}");
}

/// The diagram has each of these parts.
fn assert_has_each(rt: &impl Abort, diagram: &str, parts: &[&str]) {
    for part in parts {
        assert_has(rt, diagram, part);
    }
}

/// It is a whole diagram, of width 1050.
fn assert_whole(rt: &impl Abort, diagram: &str) {
    assert!(rt; diagram.starts_with("<svg xmlns=\"http://www.w3.org/2000/svg\" width=\"1050\""));
    assert!(rt; diagram.ends_with("</svg>\n"));
}

#[test]
fn what_happens_is_drawn(rt: HostRuntime) {
    let diagram = drawn(&rt, rt.alloc(), FOLLOWED.as_bytes());
    assert_whole(&rt, diagram.as_str());
    let parts = [
        "<path class=\"lane liar\" d=\"M300 ",
        ">v3</text>",
        "<path class=\"lane\" d=\"M900 ",
        ">c7</text>",
        ">0 proposal 0 0 -1 E</text>",
        ">refuses 7</text>",
        ">decides 0 0 E</text>",
    ];
    assert_has_each(&rt, diagram.as_str(), &parts);
}

/// The ends of arrows split the diagram into so many parts.
fn assert_arrows(rt: &impl Abort, diagram: &str, wanted: usize) {
    let arrows = diagram.split("marker-end").count();
    assert!(rt; arrows == wanted, "{arrows}");
}

#[test]
fn each_message_is_passed_once(rt: HostRuntime) {
    let diagram = drawn(&rt, rt.alloc(), FOLLOWED.as_bytes());
    // The proposal comes to validator 3 and then to 2, the transaction to 1, 2 and 3, the prevote to 1 and 2, and the vote to 3. One more
    // of each kind, of which there are 7, is in the legend.
    assert_arrows(&rt, diagram.as_str(), 1 + 7 + 2 + 3 + 2 + 1);
}

#[test]
fn text_is_escaped(rt: HostRuntime) {
    let diagram = drawn(&rt, rt.alloc(), b"<&> \"");
    assert_has(&rt, diagram.as_str(), ">&lt;&amp;&gt; &quot;</text>");
}
