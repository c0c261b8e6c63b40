// The requests that a signature makes.
ghost use Rattle.std.specs.Prelude.{◌≡◌};
ghost use Rattle.service.specs.Services.{requests_of};

use allocation::asked::Asked;
use arrayvec::ArrayVec;
use values::value_type::ValueType;

// Each type, at its own alignment.
pub(crate) fn requests<const N: usize>(types: &ArrayVec<ValueType, N>) -> ArrayVec<Asked, N>
    ensures each_at_its_own_alignment { result.items ≡ requests_of types.now.items }
{
    let mut list = ArrayVec::new();
    for value in types.as_slice() {
        list.push(Asked::aligned(value.kind, value.width.bytes() as u8));
    }
    list
}
