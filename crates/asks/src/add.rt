// The sheet that an add stands for: k places of the greatest kind in a chain for a path of k names, and the added sheet at its end.
ghost use Rattle.asks.specs.Theorems.{AddSized, AddFormed, AddLaw, AddOnly, AddRead, AddBeside};

use kinds::kind::Kind;

// What holds of the sheet of an add, for every type of kind.
pub fn add_laws<K: Kind>()
    ensures sized { AddSized K.Kind.laws }
    ensures formed { AddFormed K.Kind.laws }
    ensures law { AddLaw K.Kind.laws }
    ensures only { AddOnly K.Kind.laws }
    ensures read { AddRead K.Kind.laws }
    ensures beside { AddBeside K.Kind.laws }
{}
