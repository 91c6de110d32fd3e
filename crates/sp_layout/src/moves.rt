//! Elements whose lines stand elsewhere.
ghost use Rattle.std.specs.Prelude.{◌≡◌, ◌≤◌, ◌++◌, map, take, drop, vec_len, vec_capacity, All};
ghost use Rattle.sp_layout.specs.Exchanges.{moved_element, CanMove};

use sp_columns::Element;

/// Makes the place of each element less and more by so much.
fn move_all(elements: &mut [Element], less: u64, more: u64)
    requires { All (CanMove less more) elements.old }
    ensures { elements.new ≡ map (moved_element less more) elements.old }
{
    for element in elements.iter_mut() {
        element.first = element.first - less + more;
    }
}

/// Makes the places of elements, from one on, less and more by so much.
pub fn move_elements(elements: &mut Vec<Element>, from: usize, less: u64, more: u64)
    requires within { from ≤ vec_len elements.old }
    requires can { All (CanMove less more) (drop from elements.old.items) }
    ensures elements { elements.new.items ≡ take from elements.old.items ++ map (moved_element less more)
        (drop from elements.old.items) }
    ensures len { vec_len elements.new ≡ vec_len elements.old }
    ensures room { vec_capacity elements.new ≡ vec_capacity elements.old }
{
    if less != more {
        move_all(&mut elements[from..], less, more);
    }
}
