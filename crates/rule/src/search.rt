// A search among numbers that ascend: those of a structure's elements, the keys of a map.
ghost use Rattle.std.specs.Prelude.{ℕ, ◌≤◌, ◌<◌};
ghost use Rattle.definition.specs.Limits.{field_limit};
ghost use Rattle.rule.specs.Search.{KeysAre, Places};

// The place of a number among so many keys, of which each is told by its place. Keys often count from 0, so the place that is the number
// comes first; then the search halves what is left.
pub fn search<F: Fn(usize) -> u16>(count: usize, number: u16, key: F) -> Option<usize>
    requires few { count ≤ field_limit }
    requires callable { (i : ℕ) → i < count → F.pre key i }
    ensures { (keys : ℕ → ℕ) → KeysAre (F.post key) count keys → Places result count number keys }
{
    let guess = usize::from(number);
    if guess < count && key(guess) == number {
        return Some(guess);
    }
    let mut low: usize = 0;
    let mut high = count;
    while low < high {
        let mid = (low + high) >> 1;
        let x = key(mid);
        if x == number {
            return Some(mid);
        }
        if x < number {
            low = mid + 1;
        } else {
            high = mid;
        }
    }
    None
}
