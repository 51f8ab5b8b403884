//! The rules.
ghost use Rattle.std.specs.Prelude.{◌≡◌, ◌<◌, ◌+◌, [], ◌∷◌, ◌++◌, length, position, IfOk, IfSome, OnOk, OnErr, Some};
ghost use Rattle.group_policy.specs.Judgements.{rule_matches, judgement, verdict_by};

use crate::{MemberName, NoMemory, Rule, Verdict};
use group_terms::List;
use std::alloc::Global;
use std::marker::Model;

/// The rules of a policy, in the order of their numbers, which begin at 1.
#[derive(Drop)]
pub struct Rules {
    rules: List<Rule>,
}

impl Model for Rules {
    ghost use Rattle.std.specs.Prelude.{List, ◌<◌, length};
    ghost use Rattle.group_terms.specs.declared.patterns.Rule.{Rule};

    ghost Value = { List Rule };

    ghost view = { λ rules. rules.rules };

    ghost invariant = { λ rules. length rules.rules < 4294967296 };
}

impl Rules {
    /// No rule. It takes no memory.
    pub fn new(alloc: Global) -> Self
        ensures { result ≡ [] }
    {
        Rules {
            rules: List::new(alloc),
        }
    }

    /// How many rules there are.
    pub fn len(&self) -> u32
        ensures { result ≡ length self.now }
    {
        self.rules.len() as u32
    }

    /// Puts a rule at the end, and gives its number. There may be fewer than 2^32 - 1 rules before.
    pub fn add(&mut self, rule: Rule) -> Result<u32, NoMemory>
        requires { length self.old < 4294967295 }
        ensures number { IfOk result (λ number. number ≡ length self.old + 1) }
        ensures ok { OnOk result (self.new ≡ self.old ++ rule ∷ []) }
        ensures err { OnErr result (self.new ≡ self.old) }
    {
        self.rules.push(rule)?;
        Ok(self.rules.len() as u32)
    }

    /// What the policy says of a member: the first rule that matches it decides, and without one it is denied with the number 0.
    pub fn judge(&self, member: &MemberName) -> Verdict
        ensures { result ≡ judgement self.now member.now }
    {
        let rules = self.rules.as_slice();
        match place_of_first(rules, member) {
            Some(place) => verdict(&rules[place], place as u32 + 1),
            None => Verdict::Denied { rule: 0 },
        }
    }
}

/// The place of the first rule that matches a member.
fn place_of_first(rules: &[Rule], member: &MemberName) -> Option<usize>
    ensures place { result ≡ position (rule_matches member.now) rules.now }
    ensures within { IfSome result (λ place. place < length rules.now) }
{
    rules.iter().position(|rule| rule.pattern.matches(member))
}

/// What a rule with this number says of the members that it matches.
fn verdict(rule: &Rule, number: u32) -> Verdict
    ensures { result ≡ verdict_by (Some (number, rule.now)) }
{
    if rule.allow {
        Verdict::Allowed { rule: number }
    } else {
        Verdict::Denied { rule: number }
    }
}
