#![tactic(auto)]

// Patterns with counted repeats and the automaton that reads them: definitions and theorems, with no program logic.
//
// The definitions stand in specs/, from bottom to top: Language (patterns as trees, and their rows), Places (firsts, lasts,
// low and width), Links, Step (the front of a row, and when it fits), Moves (the step as a bank makes it), Completion (need,
// stuck and hint), Distances, PlaceRows, Decide (the relations as tests), Theorems, Examples.
// A function here does nothing but promise theorems: its contract names them, so that the crate is proved only with their proofs.
// A crate above cites the lemma itself, by `use Rattle.automata.proofs.Fronts.{language_by_fronts_lem}`, in a proof:
//
//     language_by_fronts_lem e w formed : In e w ↔ Fits e w
ghost use Rattle.std.specs.Prelude.{◌≡◌, length};
ghost use Rattle.automata.specs.Theorems.{LanguageByFronts};
ghost use Rattle.automata.specs.Theorems.{NullableByRows, RowsByPlaces, FirstsByRows, LastsByRows};
ghost use Rattle.automata.specs.Theorems.{FrontByStep, FrontInside, StartBounds, FrontByMoves};
ghost use Rattle.automata.specs.Theorems.{CompletionsByPaths, NeedByPaths, StuckByPaths, NeedUnique, NeedZero, NeedNotStuck};
ghost use Rattle.automata.specs.Theorems.{HintExists, HintsCount, HintsFinish, HintByPaths, HintHeld};
ghost use Rattle.automata.specs.Theorems.{LabelsRight, NeedByLabels, StuckByLabels, HintByLabels};
ghost use Rattle.automata.specs.Theorems.{FormDecided, PlacesDecided, MeetingsDecided, LinksDecided};
ghost use Rattle.automata.specs.Examples.{table, ExamplesHold};

// A row is in the language exactly when its front fits.
pub fn language_by_fronts()
    ensures decides { LanguageByFronts }
{}

// Nullable is that the empty row is in the language; the firsts and lasts are the places that take the first and the last
// symbols of its rows.
pub fn firsts_and_lasts()
    ensures nullables { NullableByRows }
    ensures rows { RowsByPlaces }
    ensures firsts { FirstsByRows }
    ensures lasts { LastsByRows }
{}

// The front after one more symbol is the step of the front; it lies within the widths, and a bank's moves give it.
pub fn step_by_moves()
    ensures steps { FrontByStep }
    ensures inside { FrontInside }
    ensures bounds { StartBounds }
    ensures moves { FrontByMoves }
{}

// Completions are paths of links from the front, so the need is the length of a shortest path, and a row is stuck where there
// is none. A row has at most one need, which is 0 exactly when it fits.
pub fn completions_by_paths()
    ensures paths { CompletionsByPaths }
    ensures shortest { NeedByPaths }
    ensures stuck { StuckByPaths }
    ensures unique { NeedUnique }
    ensures complete { NeedZero }
    ensures apart { NeedNotStuck }
{}

// Where the need is above 0 there is a hint; hints bring the row into the language after just as many symbols as the need.
pub fn hints_meet_the_need()
    ensures exists { HintExists }
    ensures counted { HintsCount }
    ensures finish { HintsFinish }
    ensures paths { HintByPaths }
    ensures held { HintHeld }
{}

// A table of distances that meets a few local facts is right, whatever filled it; need, stuck and hint follow from it.
pub fn distances_by_local_facts()
    ensures labels { LabelsRight }
    ensures need { NeedByLabels }
    ensures stuck { StuckByLabels }
    ensures hint { HintByLabels }
{}

// The tests that compute decide the relations.
pub fn tests_decide()
    ensures form { FormDecided }
    ensures places { PlacesDecided }
    ensures meetings { MeetingsDecided }
    ensures links { LinksDecided }
{}

// How many worked examples the table has; all of them hold.
pub fn worked_examples() -> usize
    ensures count { result ≡ length table }
    ensures hold { ExamplesHold }
{
    16
}
