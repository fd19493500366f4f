// A watch that keeps nothing.

use core_run::{Go, View, Watch};
use prov_memory::Touched;
use ub_base::{Event, Frame, NoMemory};

/// Is told each pick, and lets the run go on.
#[derive(Drop)]
pub struct Idle;

impl Watch for Idle {
    #[inline(always)]
    fn pick(&mut self, _v: &View, _event: Option<Event>, _items: &Touched) -> Result<Go, NoMemory> {
        Ok(Go::On)
    }

    #[inline(always)]
    fn node_done(
        &mut self,
        _v: &View,
        _frame: Frame,
        _turn: u64,
        _node: u32,
    ) -> Result<Go, NoMemory> {
        Ok(Go::On)
    }

    #[inline(always)]
    fn operands_done(
        &mut self,
        _v: &View,
        _frame: Frame,
        _turn: u64,
        _node: u32,
    ) -> Result<Go, NoMemory> {
        Ok(Go::On)
    }
}
