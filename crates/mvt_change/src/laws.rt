//! Laws of changes. Each function does nothing: its contract is the law.

ghost use Rattle.mvt_change.specs.Laws.{ChangeMakesDocument, TurnedFits, TurnedLeadsBack, TurnedTwice, JoinedGo, JoinedFit, JoinedListGoes, JoinedListFits};

/// A change that fits leads from a valid document to a valid document (`makes`), and the turned
/// change fits the latter (`fits`).
#[tactic(auto, using(crate::proofs::Turning::change_makes, crate::proofs::Turning::turned_fits))]
pub fn turned_fits()
    ensures makes { ChangeMakesDocument }
    ensures fits { TurnedFits }
{}

/// After a change that fits, the turned change leads back to the document (`back`), and turned
/// again it is the change itself (`twice`).
#[tactic(auto, using(crate::proofs::Turning::turned_back, crate::proofs::Turning::turned_twice))]
pub fn turned_leads_back()
    ensures back { TurnedLeadsBack }
    ensures twice { TurnedTwice }
{}

/// Two joined changes are carried out one after the other (`made`), and fit exactly if the first
/// fits, and the second fits what it made (`fit`).
#[tactic(auto, using(crate::proofs::Turning::go_joined, crate::proofs::Turning::fit_joined))]
pub fn joined()
    ensures made { JoinedGo }
    ensures fit { JoinedFit }
{}

/// A joined list of changes is carried out one change after the other (`made`), and fits exactly if
/// each fits what those before it made (`fit`).
#[tactic(auto, using(crate::proofs::JoinedChanges::go_joined_list, crate::proofs::JoinedChanges::fit_joined_list))]
pub fn joined_list()
    ensures made { JoinedListGoes }
    ensures fit { JoinedListFits }
{}
