// What merging is: the merge of two sheets, when they clash, and what a merge can be counted on for. (The field says
// unification of psi-terms.) The functions have no code of their own: the contract of each is a group of laws, for every type of kind.
#![tactic(auto)]

ghost use Rattle.unification.specs.Examples.{Worked};
ghost use Rattle.unification.specs.Scan.{Scanned};
ghost use Rattle.unification.specs.Theorems.{AllReached, Unique, OneImage, Greatest, OnlyMerge, Refused, OneMerge, Exists, NotBoth, Exact, Enough, Stands, OneStanding, AnyOrder, ClashAnyOrder, Decided};

use kinds::kind::Kind;

// Every place of a sheet is reached; a sheet is told by what it satisfies and what satisfies it, and its numbering by a scan.
pub fn laws_of_sheets<K: Kind>()
    ensures reached { AllReached K }
    ensures unique { Unique K.Kind.laws }
    ensures image { OneImage K.Kind.laws }
    ensures numbering { Scanned }
{}

// The merge of two sheets is the greatest sheet that satisfies both, and they clash exactly where there is none.
pub fn laws_of_merges<K: Kind>()
    ensures greatest { Greatest K.Kind.laws }
    ensures only { OnlyMerge K.Kind.laws }
    ensures refused { Refused K.Kind.laws }
    ensures single { OneMerge K.Kind.laws }
    ensures exists { Exists K.Kind.laws }
    ensures apart { NotBoth K.Kind.laws }
    ensures exact { Exact K.Kind.laws }
    ensures enough { Enough K.Kind.laws }
{}

// Asks merge to one sheet in any order and with any repeats, or clash in every order.
pub fn laws_of_lists<K: Kind>()
    ensures standing { Stands K.Kind.laws }
    ensures single { OneStanding K.Kind.laws }
    ensures ordered { AnyOrder K.Kind.laws }
    ensures clashing { ClashAnyOrder K.Kind.laws }
    ensures decided { Decided K.Kind.laws }
{}

// Merges worked out by hand.
pub fn worked_examples<K: Kind>()
    ensures { Worked K.Kind.laws }
{}
