// Why a line or a call is refused. Each layer of the library has a type of its own for its faults; what all of them have is
// here: a number that the rules give, and the layer that the number belongs to.
#![tactic(auto)]

ghost use Rattle.std.specs.Prelude.{◌≡◌, ℕ};
ghost use Rattle.faults.specs.Layers.{InLayer, InSomeLayer};

// Where a refusal comes from.
#[derive(Clone, Copy, PartialEq, Eq, Debug)]
pub enum Layer {
    Text,
    Sheet,
    Job,
}

pub trait Fault: Copy {
    // The number of each fault.
    ghost numbers: { Self → ℕ };

    // Each number is one of a layer.
    ghost layered: { (fault : Self) → InSomeLayer (numbers fault) };

    fn number(self) -> u8
        ensures { result ≡ numbers self };

    fn layer(self) -> Layer
        ensures { InLayer result (numbers self) }
    {
        match self.number() {
            10..=13 => Layer::Text,
            30..=38 => Layer::Job,
            _ => Layer::Sheet,
        }
    }
}
