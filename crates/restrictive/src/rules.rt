// The first violation of the rules. Rules 2 and 4 permit an event the same states whatever the event is; rules 3 and 5 make sets for each event.
ghost use Rattle.std.specs.Prelude.{◌≡◌, ℕ, ◌<◌, ◌≤◌, true, IfSome, IfNone};
ghost use Rattle.std.proofs.Math.Option.{none};
ghost use Rattle.bounded.specs.Search.{first};
ghost use Rattle.part.specs.Record.{states, events};
ghost use Rattle.words.specs.Arrays.{Filled, sets_of};
ghost use Rattle.words.specs.LittleEndian.{byte};
ghost use Rattle.words.specs.Sets.{Rows};
ghost use Rattle.partition.specs.Sets.{ClassOf};
ghost use Rattle.relations.specs.Relations.{role_at, concerns, rule_at, reach_for};
ghost use Rattle.relations.specs.Sets.{place_of, Concerned, RolesOf};
ghost use Rattle.restrictive.specs.Sets.{offer, Offers, Permitted, reached, Beside, Judgeable, OfferedDirectly, OfferedSilently};
ghost use Rattle.restrictive.specs.Verdict.{rule_violation, violation_for};
ghost use Rattle.restrictive.specs.Found.{found_of, finding_of, taken_up, FindingFor};
ghost use Rattle.restrictive.specs.Searched.{observer_in, rule_found, event_found};

use crate::answer::{Break, Case, Violation};
use crate::naming::Judged;
use crate::search::Search;
use relations::event;
use relations::event::{Roles, Rule};
use relations::silent::{closure_sizes, closures};
use words::set;

// What is found, with how many states are taken up for it.
#[tactic(auto, unfolding(crate::specs::Found::found_of, crate::specs::Found::finding_of, crate::specs::Found::taken_up))]
fn counted(found: Result<(), Violation>, taken: usize) -> Result<usize, Break>
    ensures found { finding_of result ≡ found_of found }
    ensures taken { taken_up result ≡ taken }
{
    match found {
        Ok(()) => Ok(taken),
        Err(violation) => Err(Break { violation, taken }),
    }
}

// Room for what is made anew for each event: what it leads to, and the classes that the states offer. It is lent, so that it is not cleared
// for each rule.
#[derive(Drop)]
struct Room {
    scratch: [u64; 64],
    offers: [u64; 64],
}

impl<'a> Search<'a> {
    // The first violation in a case of one of the rules 2 to 5.
    fn case_violation(
        &self,
        case: Case,
        permitted: &[u64; 64],
        offers: &[u64; 64],
    ) -> Result<(), Violation>
        requires { Judgeable self.now.b.bytes.now self.now.columns.column.classes.now self.now.columns.fine.classes.now self.now.observer case permitted.now offers.now }
        ensures { found_of result ≡ event_found self.now (place_of case.rule) case.event }
    {
        let judged = Judged {
            search: *self,
            case,
            permitted,
            offers,
        };
        judged.first_violation()
    }

    // Rule 1. `inputs` is the set of the events that it speaks of.
    #[tactic(auto, using(crate::proofs::EventScans::event_scans), unfolding(crate::specs::Found::found_of, crate::specs::Verdict::rule_violation))]
    fn rule_1(&self, inputs: u64) -> Result<(), Violation>
        requires { Concerned self.now.b.bytes.now self.now.observer 0 inputs }
        ensures { found_of result ≡ rule_found self.now 0 }
    {
        for event in 0..self.b.events() {
            if set::contains(inputs, event) {
                self.input_violation(event)?;
            }
        }
        Ok(())
    }

    // A rule by which the states that an event may lead to are the same for all events. One function over a closure for this
    // loop, that of rule 1 and that of by_event would say each one's `requires` at the closure again.
    #[tactic(auto, using(crate::proofs::EventScans::event_scans), unfolding(crate::specs::Found::found_of, crate::specs::Verdict::rule_violation))]
    fn same_for_events(
        &self,
        rule: Rule,
        concerned: u64,
        permitted: &[u64; 64],
        offers: &[u64; 64],
    ) -> Result<(), Violation>
        requires le_rule { (1 ≤ place_of rule) × Beside (place_of rule) self.now.columns.column.classes.now self.now.columns.fine.classes.now }
        requires concerned { Concerned self.now.b.bytes.now self.now.observer (place_of rule) concerned }
        requires by_index { (i : ℕ) → Permitted self.now.b.bytes.now (observer_in self.now) (place_of rule) i permitted.now }
        requires offers { 2 ≤ place_of rule → (i : ℕ) → Offers self.now.b.bytes.now self.now.observer (byte self.now.columns.column.classes.now) (place_of rule) i offers.now }
        ensures { found_of result ≡ rule_found self.now (place_of rule) }
    {
        for event in 0..self.b.events() {
            if set::contains(concerned, event) {
                self.case_violation(Case { rule, event }, permitted, offers)?;
            }
        }
        Ok(())
    }

    // Rule 2. `highs` is the set of the high inputs.
    fn rule_2(&self, highs: u64) -> Result<(), Violation>
        requires { Concerned self.now.b.bytes.now self.now.observer 1 highs }
        ensures { found_of result ≡ rule_found self.now 1 }
    {
        if highs == 0 {
            return Ok(());
        }
        let mates = self.columns.column.class_mates();
        self.same_for_events(Rule::HighInputs, highs, &mates, &mates)
    }

    // The first violation in a case, with the classes that each state offers: none where the states of a fine class offer the same.
    fn by_offers(
        &self,
        case: Case,
        offers: &[u64; 64],
        scratch: &mut [u64; 64],
    ) -> Result<(), Violation>
        requires le_rule { (2 ≤ place_of case.rule) × Beside (place_of case.rule) self.now.columns.column.classes.now self.now.columns.fine.classes.now }
        requires event_bound { case.event < events self.now.b.bytes.now }
        requires event_value { concerns (rule_at (place_of case.rule)) (role_at self.now.b.bytes.now self.now.observer case.event) ≡ true }
        requires offers { Offers self.now.b.bytes.now self.now.observer (byte self.now.columns.column.classes.now) (place_of case.rule) case.event offers.now }
        ensures { found_of result ≡ event_found self.now (place_of case.rule) case.event }
    {
        if self.columns.fine.classwise_equal(offers, scratch) {
            return Ok(());
        }
        self.columns.put_offered_states(scratch, offers);
        self.case_violation(case, scratch, offers)
    }

    // Over the start of out: the classes that each state offers in a case, from a table by state; where there is a closure, with silent steps
    // before the event. `scratch` is room for what the event leads to; both arrays
    // are lent, so that they are not made anew for each event.
    fn put_offers(
        &self,
        out: &mut [u64; 64],
        case: Case,
        table: &[u64; 64],
        closure: Option<&[u64; 64]>,
        scratch: &mut [u64; 64],
    )
        requires event_bound { case.event < events self.now.b.bytes.now }
        requires offered_directly { IfNone closure (OfferedDirectly self.now.b.bytes.now self.now.observer (byte self.now.columns.column.classes.now) (place_of case.rule) table.now) }
        requires offered_silently { IfSome closure (λ c. OfferedSilently self.now.b.bytes.now self.now.observer (byte self.now.columns.column.classes.now) (place_of case.rule) c.now table.now) }
        ensures { Filled (sets_of (offer self.now.b.bytes.now self.now.observer (byte self.now.columns.column.classes.now) (rule_at (place_of case.rule)) case.event)) (states self.now.b.bytes.now) out.old out.new }
    {
        match closure {
            None => event::look_up(out, self.b, case.event, table),
            Some(closure) => {
                event::look_up(scratch, self.b, case.event, table);
                set::gather_over(out, self.columns.column.classes.len(), closure, scratch);
            }
        }
    }

    // A rule by which the states offer classes that the event decides.
    #[tactic(auto, using(crate::proofs::EventScans::event_scans), unfolding(crate::specs::Found::found_of, crate::specs::Verdict::rule_violation))]
    fn by_event(
        &self,
        rule: Rule,
        concerned: u64,
        table: &[u64; 64],
        closure: Option<&[u64; 64]>,
        room: &mut Room,
    ) -> Result<(), Violation>
        requires le_rule { (2 ≤ place_of rule) × Beside (place_of rule) self.now.columns.column.classes.now self.now.columns.fine.classes.now }
        requires concerned { Concerned self.now.b.bytes.now self.now.observer (place_of rule) concerned }
        requires offered_directly { IfNone closure (OfferedDirectly self.now.b.bytes.now self.now.observer (byte self.now.columns.column.classes.now) (place_of rule) table.now) }
        requires offered_silently { IfSome closure (λ c. OfferedSilently self.now.b.bytes.now self.now.observer (byte self.now.columns.column.classes.now) (place_of rule) c.now table.now) }
        ensures { found_of result ≡ rule_found self.now (place_of rule) }
    {
        for event in 0..self.b.events() {
            if set::contains(concerned, event) {
                let case = Case { rule, event };
                self.put_offers(&mut room.offers, case, table, closure, &mut room.scratch);
                self.by_offers(case, &room.offers, &mut room.scratch)?;
            }
        }
        Ok(())
    }

    // Rule 3, for the low inputs and the class of each state: it asks nothing of the fine classes.
    fn rule_3(&self, inputs: u64, labels: &[u64; 64], room: &mut Room) -> Result<(), Violation>
        requires concerned { Concerned self.now.b.bytes.now self.now.observer 2 inputs }
        requires class_of { ClassOf (states self.now.b.bytes.now) (byte self.now.columns.column.classes.now) labels.now }
        ensures { found_of result ≡ rule_found self.now 2 }
    {
        let coarse = Search {
            b: self.b,
            observer: self.observer,
            columns: self.columns.coarse(),
        };
        coarse.by_event(Rule::LowInputs, inputs, labels, None, room)
    }

    // Rule 4, with the classes that silent steps lead to: none where the states of a fine class reach the same.
    fn rule_4(&self, silent: u64, met: &[u64; 64], scratch: &mut [u64; 64]) -> Result<(), Violation>
        requires concerned { Concerned self.now.b.bytes.now self.now.observer 3 silent }
        requires rows { Rows (states self.now.b.bytes.now) met.now (reached self.now.b.bytes.now self.now.observer (byte self.now.columns.column.classes.now)) }
        ensures { found_of result ≡ rule_found self.now 3 }
    {
        if self.columns.fine.classwise_equal(met, scratch) {
            return Ok(());
        }
        self.columns.put_offered_states(scratch, met);
        self.same_for_events(Rule::SilentEvents, silent, scratch, met)
    }

    // Rules 4 and 5, where there are silent events, with the closure of each state.
    fn with_closures(
        &self,
        roles: &Roles,
        labels: &[u64; 64],
        closure: &[u64; 64],
        room: &mut Room,
    ) -> Result<(), Violation>
        requires roles { RolesOf self.now.b.bytes.now self.now.observer roles.now }
        requires class_of { ClassOf (states self.now.b.bytes.now) (byte self.now.columns.column.classes.now) labels.now }
        requires rows { Rows (states self.now.b.bytes.now) closure.now (reach_for self.now.b.bytes.now self.now.observer) }
        requires earlier_rules_hold { first 3 (rule_found self.now) ≡ none }
        ensures { found_of result ≡ violation_for self.now.b.bytes.now (observer_in self.now) }
    {
        let met = set::gather_each(self.columns.column.classes.len(), closure, labels);
        self.rule_4(roles.silent_events, &met, &mut room.scratch)?;
        self.by_event(
            Rule::LowOutputs,
            roles.low_outputs,
            &met,
            Some(closure),
            room,
        )
    }

    // Rules 4 and 5, with the states that are taken up. Without silent events rule 4 asks nothing, rule 5 asks for the event alone, and each
    // state is alone in its closure.
    fn rules_from_4(
        &self,
        roles: &Roles,
        labels: &[u64; 64],
        room: &mut Room,
    ) -> Result<usize, Break>
        requires roles { RolesOf self.now.b.bytes.now self.now.observer roles.now }
        requires class_of { ClassOf (states self.now.b.bytes.now) (byte self.now.columns.column.classes.now) labels.now }
        requires earlier_rules_hold { first 3 (rule_found self.now) ≡ none }
        ensures { FindingFor self.now.b.bytes.now (observer_in self.now) result }
    {
        if roles.silent_events == 0 {
            let found = self.by_event(Rule::LowOutputs, roles.low_outputs, labels, None, room);
            return counted(found, self.columns.column.classes.len());
        }
        let closure = closures(self.b, roles.silent_events);
        counted(
            self.with_closures(roles, labels, &closure.sets, room),
            closure.sizes,
        )
    }

    // The first violation of the rules and how many states are taken up then, or how many are where there is none. Where no two states share
    // a class, rules 3 to 5 ask nothing, and the states are taken up all the same.
    pub fn violation_for(&self) -> Result<usize, Break>
        ensures { FindingFor self.now.b.bytes.now (observer_in self.now) result }
    {
        if self.b.events() == 0 {
            return Ok(self.columns.column.classes.len());
        }
        let roles = Roles::of(self.b, self.observer);
        self.rule_1(roles.inputs)?;
        self.rule_2(roles.high_inputs)?;
        if self.columns.column.all_distinct() {
            return Ok(closure_sizes(self.b, roles.silent_events));
        }
        let labels = self.columns.column.class_of();
        let mut room = Room {
            scratch: set::empties(),
            offers: set::empties(),
        };
        self.rule_3(roles.low_inputs, &labels, &mut room)?;
        self.rules_from_4(&roles, &labels, &mut room)
    }
}
