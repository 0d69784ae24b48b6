// A table whose records have passed.
ghost use Rattle.judging.specs.Chained.{Numbered};

// A table with `count` whole records, whose vertex numbers are low enough to be looked up.
#[derive(Clone, Copy, Debug)]
pub struct NumberedTable<'a> {
    pub elements: &'a [u16],
    pub count: usize,
    ghost numbered: { Numbered elements.now count },
}
