// The code of a run, with what is noted for entries of its tables.
ghost use Rattle.std.specs.Prelude.{◌≡◌, length};

use prov_memory::Via;
use run_layout::Code;
use run_values::Filling;
use ub_base::Items;

/// The code that a run goes by, and what the run notes as it begins, one for each entry of the table: how each store accesses memory, and what the constant
/// bytes of each initializer list fill.
#[derive(Drop)]
pub struct Image<'p, 'c> {
    pub code: &'c Code<'p>,
    pub vias: Vec<Via>,
    pub fillings: Vec<Items<Filling>>,
    pub ghost vias_there: { length vias.items ≡ length code.now.tables.stores.items },
    pub ghost fillings_there: { length fillings.items ≡ length code.now.tables.constants.items },
}
