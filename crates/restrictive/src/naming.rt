// The first violation in a case, searched for in the order of the states. The sets say where there is one.
ghost use Rattle.std.specs.Prelude.{◌≡◌, ℕ, suc, ◌<◌, ◌≤◌, true, not, ◌&&◌, ◌↔◌, length, get_or};
ghost use Rattle.std.proofs.Props.{props};
ghost use Rattle.words.specs.LittleEndian.{byte};
ghost use Rattle.words.specs.Sets.{bit};
ghost use Rattle.part.specs.Record.{states, events, identifier, row};
ghost use Rattle.partition.specs.Classes.{same_class};
ghost use Rattle.relations.specs.Relations.{role_at, concerns, rule_at};
ghost use Rattle.relations.specs.Sets.{place_of};
ghost use Rattle.restrictive.specs.Sets.{Enabled, Offers, Judgeable, Asked};
ghost use Rattle.restrictive.specs.Answers.{violation_of};
ghost use Rattle.restrictive.specs.Found.{found_of};
ghost use Rattle.restrictive.specs.Searched.{event_found, state_found, target_found};

use crate::answer::{Case, Violation};
use crate::search::Search;
use relations::event::Rule;
use words::set;

impl<'a> Search<'a> {
    // The violation in a case at s, t, u.
    fn violation(&self, case: Case, s: usize, t: usize, u: usize) -> Violation
        requires { case.event < events self.now.b.bytes.now }
        ensures { violation_of result ≡ record { level = self.now.observer; rule = suc (place_of case.rule); event = identifier self.now.b.bytes.now case.event; s = s; t = t; u = u } }
    {
        Violation {
            level: self.observer,
            rule: case.rule,
            event: self.b.identifier(case.event),
            s,
            t,
            u,
        }
    }

    // Every state has a step of the event. All of them are asked, so that the loop is compiled to one that asks several at a
    // time: as a search that ends at the first, a late break of rule 1 at 64 states took 1.7 times as long.
    fn is_enabled(&self, event: usize) -> bool
        requires { event < events self.now.b.bytes.now }
        ensures { (result ≡ true) ↔ Enabled self.now.b.bytes.now event }
    {
        let at = self.b.rows(event);
        let mut stuck = false;
        for s in 0..self.b.states() {
            if self.b.row_from(at, event, s) == 0 {
                stuck = true;
            }
        }
        !stuck
    }

    // The first violation in a case of rule 1: a state with no step.
    pub fn input_violation(&self, event: usize) -> Result<(), Violation>
        requires event_bound { event < events self.now.b.bytes.now }
        requires event_value { concerns (rule_at 0) (role_at self.now.b.bytes.now self.now.observer event) ≡ true }
        ensures { found_of result ≡ event_found self.now 0 event }
    {
        if self.is_enabled(event) {
            return Ok(());
        }
        for s in 0..self.columns.column.classes.len() {
            if self.b.row(event, s) == 0 {
                let case = Case {
                    rule: Rule::Inputs,
                    event,
                };
                return Err(self.violation(case, s, 0, 0));
            }
        }
        Ok(())
    }
}

// A case of one of the rules 2 to 5, with the states that the event may lead to and, after rule 2, the classes that the states offer.
#[derive(Clone, Copy)]
pub struct Judged<'a> {
    pub search: Search<'a>,
    pub case: Case,
    pub permitted: &'a [u64; 64],
    pub offers: &'a [u64; 64],
    pub ghost judgeable: { Judgeable search.b.bytes.now search.columns.column.classes.now search.columns.fine.classes.now search.observer case permitted.now offers.now } by { Prim.hlevel props },
}

impl<'a> Judged<'a> {
    // u has the fine class of s and does not offer the class of t.
    fn is_unanswered(&self, s: usize, t: usize, u: usize) -> bool
        requires { (s < states self.now.search.b.bytes.now) × (t < states self.now.search.b.bytes.now) × (u < states self.now.search.b.bytes.now) }
        ensures { result ≡ (same_class (byte self.now.search.columns.fine.classes.now) u s && not (bit (get_or self.now.offers.now u 0) (byte self.now.search.columns.column.classes.now t))) }
    {
        self.search.columns.fine.classes[u] == self.search.columns.fine.classes[s]
            && !set::contains(
                self.offers[u],
                self.search.columns.column.classes[t] as usize,
            )
    }

    // The first u at which one of the rules 3 to 5 is broken at s, t.
    fn first_unanswered(&self, s: usize, t: usize) -> Result<(), Violation>
        requires states_bound { (s < states self.now.search.b.bytes.now) × (t < states self.now.search.b.bytes.now) }
        requires le_rule { 2 ≤ place_of self.now.case.rule }
        requires asked { Asked self.now.search.b.bytes.now self.now.search.observer (place_of self.now.case.rule) self.now.case.event s t }
        ensures { found_of result ≡ target_found self.now.search self.now.case s t }
    {
        for u in 0..self.search.columns.column.classes.len() {
            if self.is_unanswered(s, t, u) {
                return Err(self.search.violation(self.case, s, t, u));
            }
        }
        Ok(())
    }

    // The first violation at s, t: none where the event does not lead there or may.
    fn at_target(&self, s: usize, t: usize) -> Result<(), Violation>
        requires { (s < states self.now.search.b.bytes.now) × (t < states self.now.search.b.bytes.now) }
        ensures { found_of result ≡ target_found self.now.search self.now.case s t }
    {
        if !set::contains(self.search.b.row(self.case.event, s), t) {
            return Ok(());
        }
        if set::contains(self.permitted[s], t) {
            return Ok(());
        }
        match self.case.rule {
            Rule::HighInputs => Err(self.search.violation(self.case, s, t, 0)),
            _ => self.first_unanswered(s, t),
        }
    }

    // The first violation at s.
    #[tactic(auto, using(crate::proofs::Scans::scans), unfolding(crate::specs::Found::found_of, crate::specs::Verdict::state_violation))]
    fn at_state(&self, s: usize) -> Result<(), Violation>
        requires { s < states self.now.search.b.bytes.now }
        ensures { found_of result ≡ state_found self.now.search self.now.case s }
    {
        for t in 0..self.search.columns.column.classes.len() {
            self.at_target(s, t)?;
        }
        Ok(())
    }

    // The same, with the row of s: none where the event leads only to states that it may.
    fn at_row(&self, s: usize, to: u64) -> Result<(), Violation>
        requires s_bound { s < states self.now.search.b.bytes.now }
        requires to_value { to ≡ row self.now.search.b.bytes.now self.now.case.event s }
        ensures { found_of result ≡ state_found self.now.search self.now.case s }
    {
        if set::intersection(to, self.permitted[s]) == to {
            return Ok(());
        }
        self.at_state(s)
    }

    // The first violation in the case.
    #[tactic(auto, using(crate::proofs::Scans::scans), unfolding(crate::specs::Found::found_of, crate::specs::Verdict::event_violation))]
    pub fn first_violation(&self) -> Result<(), Violation>
        ensures { found_of result ≡ event_found self.now.search (place_of self.now.case.rule) self.now.case.event }
    {
        let at = self.search.b.rows(self.case.event);
        for s in 0..self.search.columns.column.classes.len() {
            let to = self.search.b.row_from(at, self.case.event, s);
            self.at_row(s, to)?;
        }
        Ok(())
    }
}
