// The laws that join a register's list to the vector that it stands for, each the contract of a function that does nothing.
ghost use Rattle.state_model.specs.RegisterLaws.{MultiplesAreSameStates, SameStatesAreProportional, VectorsHaveLists, RegistersHaveTotalWeights, RegistersHaveSquares, GateListsAreGates, TwoGateListsAreGates, KeptListsAreKept, LeastSizesAreSizes, NormalListsHaveSizes};

/// A list and a multiple of it stand for one state.
pub fn multiples_are_same_states()
    ensures { MultiplesAreSameStates }
{}

/// Lists that stand for one state are proportional.
pub fn same_states_are_proportional()
    ensures { SameStatesAreProportional }
{}

/// A vector over distinct qubits is that of a list.
pub fn vectors_have_lists()
    ensures { VectorsHaveLists }
{}

/// The weight of a register's vector is the total weight of its list.
pub fn registers_have_total_weights()
    ensures { RegistersHaveTotalWeights }
{}

/// The sum of squares of a register's vector is the x of its list's total weight.
pub fn registers_have_squares()
    ensures { RegistersHaveSquares }
{}

/// A list made row by row by a gate stands for the gate's vector.
pub fn gate_lists_are_gates()
    ensures { GateListsAreGates }
{}

/// A list made row by row by a gate of two qubits stands for the gate's vector.
pub fn two_gate_lists_are_gates()
    ensures { TwoGateListsAreGates }
{}

/// A list of the rows whose bit at a place has a value stands for what is kept of the vector.
pub fn kept_lists_are_kept()
    ensures { KeptListsAreKept }
{}

/// The least size of a list is the size of its vector.
pub fn least_sizes_are_sizes()
    ensures { LeastSizesAreSizes }
{}

/// A reduced and balanced list has the size of its vector.
pub fn normal_lists_have_sizes()
    ensures { NormalListsHaveSizes }
{}
