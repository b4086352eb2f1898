//! What follows from the contract of `draft_of`.
ghost use Rattle.std.specs.Prelude.{◌≡◌, [], IfOk, Ok};
ghost use Rattle.test_facts.specs.Facts.{called_draft};

use dvg_code::{Code, Instr};
use dvg_frame::{Draft, Op, OpKind};
use dvg_steps::{Step, StepsFault, draft_of};

/// Of steps that are nothing but a name a draft without operations is made.
pub fn name_alone() -> Result<Draft, StepsFault>
    ensures { IfOk result (λ draft. draft ≡ []) }
{
    draft_of(&[Step::Name("end")])
}

/// The call of a named subroutine calls operation 2, as the name stands before it.
pub fn called_by_name() -> Result<Draft, StepsFault>
    ensures { result ≡ Ok called_draft }
{
    let vector = Code::within(Instr::Vctr {
        scale: 9,
        dx: -100,
        dy: 100,
        z: 7,
    });
    draft_of(&[
        Step::Call("shape"),
        Step::Op(Op::default()),
        Step::Name("shape"),
        Step::Op(Op::new(OpKind::Draw(vector)).unwrap()),
        Step::Op(Op::new(OpKind::Return).unwrap()),
    ])
}
