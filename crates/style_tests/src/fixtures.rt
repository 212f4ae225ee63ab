//! What cases stand on. Where it can't be had the test ends.

ghost use Rattle.style_table.specs.Range.{IsInRange};

use memory_ports::MemSink;
use std::alloc::Global;
use std::process::Abort;
use style_table::Style;

/// The style of this name.
pub fn style(rt: &impl Abort, name: &str) -> Style
    ensures { IsInRange result }
{
    Style::named(name).expect(rt, name)
}

/// The list of one call, which is to fail.
pub fn one_call(rt: &impl Abort, alloc: Global, call: u64) -> Vec<u64> {
    vec![in alloc; call; 1].expect(rt, "memory")
}

/// A sink of which one call fails.
pub fn sink(rt: &impl Abort, alloc: Global, failing: u64) -> MemSink {
    MemSink::new(alloc, one_call(rt, alloc, failing))
}
