// Document 01, "Two lines": the trusted and the observed line, and the five rules, each as the crate `model` defines it; and what a status
// reply tells of the lines (`status`). Nothing is asked of a caller, and no area is touched.
#![tactic(auto)]

pub mod status;

ghost use Rattle.std.specs.Prelude.{◌≡◌, true, cond};
ghost use Rattle.model.specs.Lines.{trusted, observed, exempt, acts1, rule1, rule2, rule3, rule4, acts5, rule5};
ghost use Rattle.model.specs.Lines.{switched, with_rld, unless_slm, is_frame, is_poor};

use frames::{Hearing, Kind};
use model::Lines;

// LAA says that line A is the trusted one.
pub fn trusted(l: Lines, a: Hearing, b: Hearing) -> Hearing
    ensures { result ≡ trusted l a b }
{
    if l.laa { a } else { b }
}

// The other line is the observed one.
pub fn observed(l: Lines, a: Hearing, b: Hearing) -> Hearing
    ensures { result ≡ observed l a b }
{
    if l.laa { b } else { a }
}

// F-codes 9, 13 and 14.
pub fn exempt(code: u16) -> bool
    ensures { result ≡ exempt code }
{
    matches!(code, 9 | 13 | 14)
}

// Switch and set RLD, but not with SLM.
fn switch_and_set(when: bool, l: Lines) -> Lines
    ensures { result ≡ cond when (unless_slm (with_rld true (switched l)) l) l }
{
    if when && !l.slm {
        Lines {
            laa: !l.laa,
            rld: true,
            ..l
        }
    } else {
        l
    }
}

// Rule 1 acts on this occasion: RLD and SLM are clear.
pub fn acts1(occasion: bool, l: Lines) -> bool
    ensures { result ≡ acts1 occasion l }
{
    occasion && !l.rld && !l.slm
}

// Rule 1, an unsound frame or a reply timeout with RLD clear: switch, set RLD.
#[tactic(auto, unfolding(model::specs::Lines::rule1))]
pub fn rule1(occasion: bool, l: Lines) -> Lines
    ensures { result ≡ rule1 occasion l }
{
    switch_and_set(occasion && !l.rld, l)
}

// Rule 2, a line timeout: switch, set RLD.
#[tactic(auto, unfolding(model::specs::Lines::rule2))]
pub fn rule2(timeout: bool, l: Lines) -> Lines
    ensures { result ≡ rule2 timeout l }
{
    switch_and_set(timeout, l)
}

// Rule 3, a sound status poll to our address: switch if RLD is clear; clear RLD.
#[tactic(auto, unfolding(model::specs::Lines::rule3))]
pub fn rule3(polled: bool, l: Lines) -> Lines
    ensures { result ≡ rule3 polled l }
{
    if !polled {
        return l;
    }
    if l.rld || l.slm {
        Lines { rld: false, ..l }
    } else {
        Lines { laa: !l.laa, ..l }
    }
}

// Rule 4, the observed line poorer than the trusted one: set RLD.
#[tactic(auto, unfolding(model::specs::Lines::rule4))]
pub fn rule4(poorer: bool, l: Lines) -> Lines
    ensures { result ≡ rule4 poorer l }
{
    if poorer && !l.slm {
        Lines { rld: true, ..l }
    } else {
        l
    }
}

// Rule 5 acts at the end of a quiet bit time: LS is filed, RLD and SLM are clear.
pub fn acts5(l: Lines) -> bool
    ensures { result ≡ acts5 l }
{
    l.ls && !l.rld && !l.slm
}

// Rule 5: a filed LS switches, then clears.
#[tactic(auto, unfolding(model::specs::Lines::rule5))]
pub fn rule5(l: Lines) -> Lines
    ensures { result ≡ rule5 l }
{
    if acts5(l) {
        Lines {
            laa: !l.laa,
            ls: false,
            ..l
        }
    } else {
        l
    }
}

// A frame, whatever its kind and quality.
pub fn is_frame(k: Kind) -> bool
    ensures { result ≡ is_frame k }
{
    matches!(k, Kind::Master | Kind::Slave)
}

// Silence, noise, SQE or a violation.
pub fn is_poor(h: Hearing) -> bool
    ensures { result ≡ is_poor h }
{
    !is_frame(h.kind) || h.sqe || h.violation
}
