// Worked cases of the step, each the contract of a function that does nothing.
ghost use Rattle.network_model.specs.Cases.{ZeroProbability, Certainty, Tie, IrrationalThreshold, PairAgrees, OrderOfRefusals, RegisterLimit, Teleportation, HomesMove};

/// A new qubit is measured as 0, by the least and the greatest word.
pub fn zero_probability()
    ensures { ZeroProbability }
{}

/// A turned qubit is measured as 1, by the greatest word.
pub fn certainty()
    ensures { Certainty }
{}

/// After H the words below 2^63 give 1, and the others 0.
pub fn tie()
    ensures { Tie }
{}

/// After H, T and H the threshold between 1 and 0 is 2^62 (2 - √2).
pub fn irrational_threshold()
    ensures { IrrationalThreshold }
{}

/// Both halves of a pair give one outcome, whatever the second word is.
pub fn pair_agrees()
    ensures { PairAgrees }
{}

/// Unknown qubits are refused before equal ones, and before angles.
pub fn order_of_refusals()
    ensures { OrderOfRefusals }
{}

/// A gate that would join too many qubits is refused, and succeeds once one is measured.
pub fn register_limit()
    ensures { RegisterLimit }
{}

/// A teleported qubit is the sent one, for the least and the greatest words.
pub fn teleportation()
    ensures { Teleportation }
{}

/// Homes follow pairs, gates and measurements.
pub fn homes_move()
    ensures { HomesMove }
{}
