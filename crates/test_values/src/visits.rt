//! The two calls that count visits, of a document whose visits are counted by hand.
use prettyless::prelude::*;
use prettyless::{BoxAllocator, FmtWrite, RenderCost, RenderOptions, Visits, docs};

// Visits of a group around a text, a line and a text: seven of the printer. The probe reads all nodes but the group, or a table's sum.
const PRINTER: u64 = 7;

const PROBES: u64 = 6;

const PROBES_OVER_TABLE: u64 = 1;

#[test]
fn visits_are_added_to_those_before(rt: HostRuntime) {
    let place = BoxAllocator::new(rt.alloc());
    let line = place.line().expect(&rt, "memory was refused");
    let pair = docs![&place, "a", line, "b"].expect(&rt, "memory was refused");
    let pair = pair.group().expect(&rt, "memory was refused");
    let options = RenderOptions::new(80);
    let mut text = String::new(rt.alloc());

    let mut visits = Visits {
        printer: 0,
        probes: 0,
    };
    for _ in 0..2 {
        let mut sink = FmtWrite::new(&mut text);
        let rendered = pair
            .doc()
            .render_raw_counted_with(rt.alloc(), options, &mut sink, &mut visits);
        assert!(rt; rendered.is_ok());
    }
    assert!(rt; visits.printer == 2 * PRINTER && visits.probes == 2 * PROBES_OVER_TABLE);

    let mut cost = RenderCost { visits, refused: 1 };
    let mut sink = FmtWrite::new(&mut text);
    let rendered = pair
        .doc()
        .render_raw_observed_with(rt.alloc(), options, &mut sink, &mut cost);
    assert!(rt; rendered.is_ok());
    assert!(rt;
        cost.visits.printer == 3 * PRINTER && cost.visits.probes == 2 * PROBES_OVER_TABLE + PROBES
    );
    assert!(rt; cost.refused == 1 && text.as_str() == "a ba ba b");
}
