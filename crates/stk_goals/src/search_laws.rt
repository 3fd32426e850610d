//! Laws of functions that are searched. Each is a function that does nothing, and whose contract is the law.
ghost use Rattle.stk_goals.specs.Searched.{AcceptedFunctionsAreSearched, KeysAreThere, TypedFunctionsAreSearched};

/// A function is searched where its tree is typed and kinded, numbers have the bits of their types, the tables are its
/// own and know its loops, and it has at most 8,000,000 of weight: then the tables are to be walked, each candidate has
/// a place of 32 bits, there are no more input bits than weight, and its walk may cost no more than its weight less 16
/// for each node.
pub fn typed_functions_are_searched()
    ensures { TypedFunctionsAreSearched }
{}

/// The same of each function definition whose unit typing accepts.
pub fn accepted_functions_are_searched()
    ensures { AcceptedFunctionsAreSearched }
{}

/// A new store of terms for the kinds of keys has each of these keys, at its kind.
pub fn keys_are_there()
    ensures { KeysAreThere }
{}
