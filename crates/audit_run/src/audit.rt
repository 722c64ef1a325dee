//! An audit, step by step.

ghost use Rattle.audit_run.specs.Advances.{Advances, IsAdvanced};
ghost use Rattle.audit_run.specs.Saved.{IsOn, IsResumed, IsResumedAt, IsSave, ResumesAudit, phase_at};
ghost use Rattle.audit_run.specs.Delta.Audits.{IsDeltaBetween, IsDeltaFrom, IsResumedRelative, IsResumedRelativeAt, ResumesAuditRelative};
ghost use Rattle.audit_run.specs.Delta.Deltas.{IsBaseAt, delta_text_of};
ghost use Rattle.audit_run.specs.Seen.{finished_answer, finished_report, place_of, present_setting};
ghost use Rattle.audit_run.specs.Save.Saves.{save_of};
ghost use Rattle.report.specs.Reports.{IsReport};
ghost use Rattle.save_format.specs.Encoded.{IsTextOfSave};
ghost use Rattle.std.specs.Option.{option_copied};
ghost use Rattle.std.specs.Prelude.{◌≡◌, ◌<◌, ◌≤◌, ◌+◌, length, None, Some, IsOk, IfOk, IfSome, option_map};
ghost use Rattle.audit_rules.specs.declared.answer.AuditAnswer.{AuditAnswer as AuditAnswer};
ghost use Rattle.audit_rules.specs.Positions.{Position, On, Over};
ghost use Rattle.audit_rules.specs.Valid.{IsAuditAnswer, IsInputs, IsPosition};

use crate::advance::{advance_parts, take_piece};
use crate::delta::DeltaRefusal;
use crate::phase::{AuditPhase, Course, Progress};
use crate::save::{Resumed, SaveRefusal};
use crate::setting::setting_of;
use crate::stage::SoFar;
use audit_rules::AuditAnswer;
use ddc_base::{Bytes, OutOfMemory};
use guest_run::RunBox;
use recipe::{Inputs, Recipe};
use report::Report;
use std::alloc::Global;
use std::marker::Model;

/// An audit: a recipe, its inputs, and where it stands: before the first stage, in a stage, or over.
///
/// It keeps the allocator that its constructor took.
#[derive(Drop)]
pub struct Audit {
    recipe: Recipe,
    inputs: Inputs,
    course: Course,
    alloc: Global,
}

impl Model for Audit {
    ghost use Rattle.audit_run.specs.Inside.Parts.{IsAtRest, seen};
    ghost use Rattle.audit_run.specs.Inside.Codes.{audit_code};
    ghost use Rattle.audit_run.specs.Seen.{AuditState};

    ghost Value = { AuditState };

    ghost coded = { audit_code };

    ghost view = { λ a. record { recipe = a.recipe; inputs = a.inputs; current = seen a.course.done.items a.course.phase } };

    ghost invariant = { λ a. IsAtRest a.recipe a.inputs a.course.done.items a.course.phase };
}

impl Audit {
    /// An audit whose first stage has not started. Allocates nothing.
    pub fn new(alloc: Global, recipe: Recipe, inputs: Inputs) -> Audit
        requires { IsInputs recipe inputs }
        ensures { result ≡ record { recipe = recipe; inputs = inputs; current = None } }
    {
        Audit {
            recipe,
            inputs,
            course: Course {
                done: Vec::new(alloc),
                phase: AuditPhase::Ready,
            },
            alloc,
        }
    }

    /// Advances by `most` steps or to the audit's end, and returns where the audit stands then.
    ///
    /// The end of a stage, its check, the next stage's start and the comparison belong to the step that ends the stage's run. The first
    /// start belongs to no step. An audit that is over returns its answer again. After out of memory the audit stands after the steps that
    /// were done and may be advanced again. Memory runs out only if the next step allocates or the first stage had still to start.
    pub fn advance(&mut self, most: u64) -> Progress
        requires { 1 ≤ most }
        ensures answer { Advances self.old most result self.new.current }
        ensures recipe { self.new.recipe ≡ self.old.recipe }
        ensures inputs { self.new.inputs ≡ self.old.inputs }
    {
        advance_parts(
            self.alloc,
            &self.recipe,
            self.inputs.as_slice(),
            &mut self.course,
            most,
        )
    }

    /// The audit after `most` more steps, or at its end, as after `advance`. Error: out of memory, which leaves no audit.
    ///
    /// A stage's guest is dropped before the next stage starts, so one guest is in memory at a time.
    pub fn advanced(self, most: u64) -> Result<Audit, OutOfMemory>
        ensures { IsAdvanced self most result }
    {
        let Audit {
            recipe,
            inputs,
            mut course,
            alloc,
        } = self;
        take_piece(alloc, &recipe, inputs.as_slice(), &mut course, most)?;
        Ok(Audit {
            recipe,
            inputs,
            course,
            alloc,
        })
    }

    /// The answer of an audit that is over; `None` before its end.
    pub fn answer(&self) -> Option<&AuditAnswer>
        ensures answer { option_copied result ≡ finished_answer self.now.current }
        ensures form { IfSome (option_copied result) IsAuditAnswer }
    {
        match &self.course.phase {
            AuditPhase::Over(answer) => Some(answer),
            AuditPhase::Ready | AuditPhase::Running(_) => None,
        }
    }

    /// The report of an audit that is over; `None` before `advance` returns `Equal` or `Differs`.
    pub fn report(&self) -> Option<&Report>
        ensures report { option_copied result ≡ finished_report self.now.current }
        ensures form { IfSome (option_copied result) IsReport }
    {
        match &self.course.phase {
            AuditPhase::Over(AuditAnswer::Completes(report)) => Some(report),
            _ => None,
        }
    }

    /// The present stage's number, from 1, and the steps taken in it: (1, 0) before the first advance, (0, 0) if the audit is over.
    pub fn place(&self) -> (u32, u64)
        ensures { result ≡ place_of self.now.current }
    {
        match &self.course.phase {
            AuditPhase::Ready => (1, 0),
            AuditPhase::Running(guest) => (
                stage_after(&self.recipe, self.course.done.len()),
                guest.steps(),
            ),
            AuditPhase::Over(_) => (0, 0),
        }
    }

    /// The present stage's program and a new execution context (`RunBox`); `None`, without allocating, if the audit is over. Error: out of
    /// memory.
    pub fn setting(&self, alloc: Global) -> Result<Option<(&[u8], RunBox<'_>)>, OutOfMemory>
        ensures value { IfOk result (λ setting. option_map (λ s. (s.0.now, s.1)) setting ≡ present_setting self.now.recipe self.now.inputs self.now.current) }
        ensures over { (answer : AuditAnswer) → self.now.current ≡ Some (Over answer) → IsOk result }
    {
        match &self.course.phase {
            AuditPhase::Over(_) => Ok(None),
            AuditPhase::Ready | AuditPhase::Running(_) => {
                setting_of(
                    alloc,
                    &self.recipe,
                    self.inputs.as_slice(),
                    self.course.done.as_slice(),
                )
            }
        }
    }

    /// The save of the position, in the second form (docs/reference/save.md). Error: out of memory. Requires a started present stage, which
    /// holds after `Paused` and after `resume`.
    pub fn save(&self) -> Result<Bytes, OutOfMemory>
        requires { IsOn self.now.current }
        ensures text { IfOk result (IsSave self.now.recipe self.now.inputs self.now.current) }
        // The text may be the base of deltas.
        ensures base { IfOk result (λ text. (p : Position) × (self.now.current ≡ Some (On p)) × IsBaseAt self.now.recipe self.now.inputs p text) }
    {
        let alloc = self.alloc;
        match &self.course.phase {
            AuditPhase::Ready => unreachable!(),
            AuditPhase::Over(_) => unreachable!(),
            AuditPhase::Running(guest) => crate::save::write(
                alloc,
                &self.recipe,
                self.inputs.as_slice(),
                self.course.done.as_slice(),
                guest,
            ),
        }
    }

    /// The audit of this recipe and these inputs at the position that a save says, reached by an audit or not. Its answer is that of the
    /// position's continuation (`laws::resumed_audits_continue`).
    ///
    /// Errors, judged in this order: the form, the digests of recipe and inputs, whether it is a position. And out of memory.
    pub fn resume(
        alloc: Global,
        recipe: Recipe,
        inputs: Inputs,
        text: &[u8],
    ) -> Result<Audit, SaveRefusal>
        requires { IsInputs recipe inputs }
        // A resumed audit has this recipe and these inputs and stands at a position; the text is one of its saves.
        ensures found { IfOk result (λ audit. IsResumed recipe inputs text.now audit) }
        // Every save of every position of this recipe and these inputs, reached or not, is resumed there, unless memory runs out.
        ensures only { (p : Position) → IsPosition recipe p → IsTextOfSave (save_of recipe inputs p) text.now → IsResumedAt recipe inputs p result }
        // When each error occurs.
        ensures exact { ResumesAudit recipe inputs text.now result }
    {
        let position = crate::save::read(alloc, &recipe, inputs.as_slice(), text)?;
        Ok(Audit::phase_at(alloc, recipe, inputs, position))
    }

    /// The delta of the position against where another audit of the same recipe and inputs stands (docs/reference/delta.md). Error: out of
    /// memory. Requires a started present stage in both audits. It makes the base's text for its digest; for a base that was saved before,
    /// `save_delta_of` takes that save.
    pub fn save_delta(&self, base: &Audit) -> Result<Bytes, OutOfMemory>
        requires on { IsOn self.now.current }
        requires base { IsOn base.now.current }
        requires recipe { base.now.recipe ≡ self.now.recipe }
        requires inputs { base.now.inputs ≡ self.now.inputs }
        ensures { IfOk result (IsDeltaBetween self.now.recipe self.now.inputs base.now.current self.now.current) }
    {
        let text = base.save()?;
        self.save_delta_of(text.as_slice())
    }

    /// The delta of the position against a save, its base, in either form. Error: out of memory. Requires a started present stage, and a
    /// base that is the save of a position of this audit's recipe and inputs.
    pub fn save_delta_of(&self, base: &[u8]) -> Result<Bytes, OutOfMemory>
        requires on { IsOn self.now.current }
        requires base { (b : Position) × IsBaseAt self.now.recipe self.now.inputs b base.now }
        ensures { IfOk result (λ text. (b : Position) → IsBaseAt self.now.recipe self.now.inputs b base.now
            → IsDeltaFrom self.now.recipe self.now.inputs b self.now.current text) }
    {
        let alloc = self.alloc;
        match &self.course.phase {
            AuditPhase::Ready => unreachable!(),
            AuditPhase::Over(_) => unreachable!(),
            AuditPhase::Running(guest) => {
                let so_far = SoFar {
                    recipe: &self.recipe,
                    inputs: self.inputs.as_slice(),
                    done: self.course.done.as_slice(),
                };
                crate::delta::write(alloc, &so_far, guest, base)
            }
        }
    }

    /// The audit of this recipe and these inputs at the position that a base and a delta say, reached by an audit or not. Its answer is
    /// that of the position's continuation (`laws::resumed_audits_continue`).
    ///
    /// Errors, judged in this order: the base, as `resume` judges a save; whether the delta names another base; its form; whether it is a
    /// position. And out of memory.
    pub fn resume_delta(
        alloc: Global,
        recipe: Recipe,
        inputs: Inputs,
        base: &[u8],
        delta: &[u8],
    ) -> Result<Audit, DeltaRefusal>
        requires { IsInputs recipe inputs }
        // A resumed audit has this recipe and these inputs and stands at a position; the text is its delta against the base's position.
        ensures found { IfOk result (λ audit. IsResumedRelative recipe inputs base.now delta.now audit) }
        // The delta of every position of this recipe and these inputs, reached or not, against every base is resumed there, with each save
        // of the base, unless memory runs out.
        ensures only { (b : Position) (p : Position) → IsBaseAt recipe inputs b base.now → IsPosition recipe p
            → delta.now ≡ delta_text_of recipe inputs b p → IsResumedRelativeAt recipe inputs p result }
        // When each error occurs.
        ensures exact { ResumesAuditRelative recipe inputs base.now delta.now result }
    {
        let position = crate::delta::read(alloc, &recipe, inputs.as_slice(), base, delta)?;
        Ok(Audit::phase_at(alloc, recipe, inputs, position))
    }

    /// The audit at a position.
    fn phase_at(alloc: Global, recipe: Recipe, inputs: Inputs, position: Resumed) -> Audit
        requires given { IsInputs recipe inputs }
        requires position { IsPosition recipe position }
        ensures { result ≡ phase_at recipe inputs position }
    {
        let (done, guest) = position.into_parts();
        Audit {
            recipe,
            inputs,
            course: Course {
                done,
                phase: AuditPhase::Running(guest),
            },
            alloc,
        }
    }

    /// The audit's recipe.
    pub fn recipe(&self) -> &Recipe
        ensures { result.now ≡ self.now.recipe }
    {
        &self.recipe
    }
}

/// The number, from 1, of the stage after the first `done`.
fn stage_after(recipe: &Recipe, done: usize) -> u32
    requires { done < length recipe.now.stages }
    ensures { result ≡ done + 1 }
{
    let before = &recipe.stages().as_slice()[..done];
    before.len() as u32 + 1
}
