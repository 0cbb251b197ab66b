//! Laws of the graph. The contract of each function here is a law, and the function does nothing.
ghost use Rattle.gc_model.specs.Laws.{EachNameIsAnObjects, EachObjectIsWellTyped, NoObjectIsTakenAway};

/// A law of the graph: after any call or collection each object has its type, its maker and its counts of
/// slots and numbers as before, at most one object is new, and there are as many mutators.
pub fn no_object_is_taken_away()
    ensures { NoObjectIsTakenAway }
{}

/// A law of the graph: after every history each register and each slot names an object that is there, or
/// nothing, and each mutator has 16 registers.
pub fn each_name_is_an_objects()
    ensures { EachNameIsAnObjects }
{}

/// A law of the graph: after every history of fit calls each object has its type's counts of slots and of
/// numbers, and object 0 is of the common object's type, with its 16 slots and no numbers.
pub fn each_object_is_well_typed()
    ensures { EachObjectIsWellTyped }
{}
