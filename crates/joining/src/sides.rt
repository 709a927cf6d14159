// Two sheets side by side: their tables are in order, so that the slots of two places can be followed side by side.
ghost use Rattle.joining.specs.Ordered.{Ordered};

use records::Tables;

#[derive(Drop)]
pub(crate) struct Sides<'a, F> {
    pub tables: Tables<'a, F>,
    ghost ordered: { Ordered tables.places.now tables.slots.now },
}
