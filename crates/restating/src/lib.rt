// What is shown reads back as the same sheet. The function has no code of its own: its contract has the laws, for every type of kind
// and every vocabulary.
#![tactic(auto)]

ghost use Rattle.restating.specs.Back.{ReadsBack, OneSheet};

use kinds::kind::Kind;
use vocabulary::vocabulary::Vocabulary;

// The text of a sheet reads as a draft that describes the sheet, and a draft describes no other.
pub fn reading_back_laws<K: Kind, V: Vocabulary<K>>()
    ensures back { ReadsBack K.Kind.laws V.Vocabulary.laws }
    ensures one { OneSheet K }
{}
