// The laws of cells that stand for a history, each the contract of a function that does nothing.
ghost use Rattle.factored_core.specs.Laws.{RegistersMakeTheVector, LegalHistoriesStand, FinishedStepsStand, UndoneStepsRestore, CoreStepsStand};

/// The product of the registers of all groups is the same as the undivided vector, where cells stand for a history.
pub fn registers_make_the_vector()
    ensures { RegistersMakeTheVector }
{}

/// Cells can stand for every legal history, where the shape lets a group have a qubit.
pub fn legal_histories_stand()
    ensures { LegalHistoriesStand }
{}

/// Cells that stand for a history stand for it with the entry of a prepared step, once that is finished.
pub fn finished_steps_stand()
    ensures { FinishedStepsStand }
{}

/// A step that is undone leaves the cells as they were before it was prepared.
pub fn undone_steps_restore()
    ensures { UndoneStepsRestore }
{}

/// Cells that stand for a history stand for it with the entry of a core's step.
pub fn core_steps_stand()
    ensures { CoreStepsStand }
{}
