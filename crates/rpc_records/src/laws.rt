//! What holds of every request and every body. Each function does nothing; its contract is the law.

ghost use Rattle.std.specs.Prelude.{◌≡◌, ◌≢◌, ◌↔◌, ℕ, List, Some, All, option_map, find, IfOk, IsUtf8, Ok, Err};
ghost use Rattle.serde_json.specs.Data.{Members, object};
ghost use Rattle.serde_json.specs.Find.{get};
ghost use Rattle.rpc_records.specs.Members.{member_name};
ghost use Rattle.rpc_records.specs.declared.fault.Fault.TheVariants.{BadJson, BadMember};
ghost use Rattle.rpc_records.specs.declared.request.Request.{Request};
ghost use Rattle.rpc_records.specs.Order.{in_order, at_top, is_faulty, refusal_of};
ghost use Rattle.rpc_records.specs.Ranges.{IsInRange};
ghost use Rattle.rpc_records.specs.Reading.{json_of, meaning};
ghost use Rattle.rpc_records.specs.Spelling.{canonical_text};

/// The refusal of a body says that it is no object exactly if it is none.
pub fn only_objects_are_read()
    ensures { (body : List ℕ) → (meaning body ≡ Err BadJson) ↔ ((ms : Members) → json_of body ≢ Some (object ms)) }
{}

/// The refusal of an object names the first faulty member in order. A request is read exactly if no member is faulty.
pub fn first_fault_is_told()
    ensures { (body : List ℕ) (ms : Members) → json_of body ≡ Some (object ms)
        → refusal_of (meaning body) ≡ option_map BadMember (find (is_faulty (object ms)) in_order) }
{}

/// Bodies that agree in the members of a request mean the same. Other members, the order and the spacing do not matter.
pub fn other_members_are_passed_over()
    ensures { (a b : List ℕ) (ms ns : Members) → json_of a ≡ Some (object ms) → json_of b ≡ Some (object ns)
        → All (λ m. get (member_name m) (object ms) ≡ get (member_name m) (object ns)) at_top → meaning a ≡ meaning b }
{}

/// What is read is within the ranges.
pub fn what_is_read_is_in_range()
    ensures { (body : List ℕ) → IfOk (meaning body) IsInRange }
{}

/// The canonical text of a request is read back as that request, if it is UTF-8. The text of a [`Text`](texts::Text)
/// is.
pub fn requests_are_read_again()
    ensures { (r : Request) → IsInRange r → IsUtf8 (canonical_text r) → meaning (canonical_text r) ≡ Ok r }
{}

/// Two requests with one canonical text are equal.
pub fn one_text_is_one_request()
    ensures { (a b : Request) → IsInRange a → IsInRange b → canonical_text a ≡ canonical_text b → a ≡ b }
{}
