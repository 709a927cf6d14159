// The numbers that the classes have got so far.
ghost use Rattle.std.specs.Prelude.{◌≡◌, ◌<◌, ◌≤◌, [], ◌∷◌};
ghost use Rattle.std.specs.List.{slice_get};
ghost use Rattle.numbering.specs.Numbers.{Known, Only};
ghost use Rattle.numbering.specs.Writing.{Extended};

use arrayvec::ArrayVec;
use records::MOST_PLACES;

// The ends of the numbered classes by number, and the number of each by its end.
#[derive(Drop)]
pub(crate) struct Numbers {
    pub(crate) order: ArrayVec<u16, MOST_PLACES>,
    pub(crate) number: [Option<u16>; MOST_PLACES],
    ghost known: { Known order.items number },
    ghost only: { Only order.items number },
}

impl Numbers {
    // No class has a number yet.
    pub(crate) fn none() -> Numbers
        ensures { result.order.items ≡ [] }
    {
        Numbers {
            order: ArrayVec::new(),
            number: [None; MOST_PLACES],
        }
    }

    // The end of the class of the number `p`.
    pub(crate) fn end_of(&self, p: usize) -> Option<u16>
        ensures { result ≡ slice_get self.now.order.items p }
    {
        self.order.get(p).copied()
    }

    // The number of the class whose end is `v`: a class with none yet gets the next.
    pub(crate) fn number_of(&mut self, v: u16) -> u16
        requires { v < 1000 }
        ensures { Extended self.old.order.items v result self.new.order.items }
    {
        if let Some(j) = self.number[v as usize] {
            return j;
        }
        let j = self.order.len() as u16;
        self.number[v as usize] = Some(j);
        self.order.push(v);
        j
    }
}
