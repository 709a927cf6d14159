// The grammar of a place, and what the reader's answers mean in its words.
#![tactic(auto)]

ghost use Rattle.grammar.specs.Lines.{Accepts, Refuses};
ghost use Rattle.grammar.specs.Rules.{ByRules, EndByRules};
ghost use Rattle.grammar.specs.Least.{RefusesLeast, AcceptsOthers, RangeIsNoKind};
ghost use Rattle.grammar.specs.Points.{Points};

// What reading a line of one place comes to, under every vocabulary of the kinds K, with room for any number of places and slots. A
// line is accepted exactly if its tokens are those of a good term, and the draft is what that term describes; it is refused with the
// first of all the rules that it breaks, at the token that breaks it.
pub fn reading_laws<K>()
    ensures accepts { Accepts K }
    ensures others { AcceptsOthers K }
    ensures least { RefusesLeast K }
    ensures points { Points K }
    ensures grammar { Refuses K }
    ensures ranges { RangeIsNoKind K }
    ensures rules { ByRules K }
    ensures end { EndByRules K }
{}
