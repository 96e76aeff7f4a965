ghost use Rattle.std.specs.Prelude.{◌≡◌, ◌<◌, ◌+◌, ◌^◌};
ghost use Rattle.field_rules.specs.Sight.{Sight, IsField, HasSlot, HasPointer, HasOmega, pointers, fields_to};

use zo_core::{NumberRange, Var};

/// The unknowns of one procedure, and what is known at its places.
///
/// Slots and places go by their numbers in the procedure, structs by theirs in the program. Pointer fields are numbered from
/// 1 through all structs. No call takes memory; each has the condition that what it is asked for exists.
pub trait View {
    ghost sight: { Self → Sight };

    /// How many slots there are.
    fn slots(&self) -> u32
        ensures { result ≡ (sight self.now).slots };

    /// The slots that are pointers, in order.
    fn pointers(&self) -> &[u32]
        ensures { result.now ≡ pointers (sight self.now) };

    /// The struct to which a slot points; none for other types.
    fn structure(&self, slot: u32) -> Option<u32>
        requires { slot < (sight self.now).slots }
        ensures { result ≡ (sight self.now).structure slot };

    /// How many pointer fields there are. They are numbered from 1 through all structs.
    fn fields(&self) -> u32
        ensures count { result ≡ (sight self.now).fields }
        ensures small { result < 2 ^ 31 };

    /// The struct that has a field.
    fn field_of(&self, field: u32) -> u32
        requires { IsField (sight self.now) field }
        ensures { result ≡ (sight self.now).field_of field };

    /// The struct to which a field points; none for other types.
    fn field_to(&self, field: u32) -> Option<u32>
        requires { IsField (sight self.now) field }
        ensures { result ≡ (sight self.now).field_to field };

    /// The pointer fields of a struct.
    fn fields_of(&self, structure: u32) -> NumberRange
        ensures range { result ≡ (sight self.now).fields_of structure }
        ensures small { result.first + result.count < 2 ^ 32 };

    /// The pointer fields that point to a struct, in order.
    fn fields_to(&self, structure: u32) -> &[u32]
        requires { structure < (sight self.now).structs }
        ensures { result.now ≡ fields_to (sight self.now) structure };

    /// That a field owns.
    fn phi(&self, field: u32) -> Var
        requires { IsField (sight self.now) field }
        ensures { result ≡ (sight self.now).phi field };

    /// That a pointer slot owns at a place.
    fn rho(&self, place: u32, slot: u32) -> Var
        requires { HasPointer (sight self.now) place slot }
        ensures { result ≡ (sight self.now).rho place slot };

    /// That the ownership of a field is taken out through a slot at a place.
    fn omega(&self, place: u32, slot: u32, field: u32) -> Var
        requires { HasOmega (sight self.now) place slot field }
        ensures { result ≡ (sight self.now).omega place slot field };

    /// Whether a slot is Empty at a place.
    fn empty(&self, place: u32, slot: u32) -> bool
        requires { HasSlot (sight self.now) place slot }
        ensures { result ≡ (sight self.now).empty place slot };

    /// Whether a slot is Fresh at a place.
    fn fresh(&self, place: u32, slot: u32) -> bool
        requires { HasSlot (sight self.now) place slot }
        ensures { result ≡ (sight self.now).fresh place slot };
}
