// The grammar of a form, and what the reader's answers mean in its words.
#![tactic(auto)]

ghost use Rattle.form_grammar.specs.FormLines.{Accepts, Refuses};
ghost use Rattle.form_grammar.specs.FormRules.{ByRules, EndByRules};
ghost use Rattle.form_grammar.specs.FormLeast.{RefusesLeast, AcceptsOthers, KindHasRoom};

// What reading a line of one form comes to, under every vocabulary of the kinds K, with room for any number of places and slots. A
// line is accepted exactly if its tokens are those of a good form, and what was read has the parts of that form; it is refused with the
// first of all the rules that it breaks.
pub fn form_laws<K>()
    ensures accepts { Accepts K }
    ensures others { AcceptsOthers K }
    ensures least { RefusesLeast K }
    ensures grammar { Refuses K }
    ensures rules { ByRules K }
    ensures end { EndByRules K }
    ensures room { KindHasRoom K }
{}
