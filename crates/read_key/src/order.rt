// 5: "key paths: none, too many, out of order, repeated".
ghost use Rattle.std.specs.Prelude.{◌≡◌};
ghost use Rattle.meaning.specs.Lists.{before as before_path, ascending};
ghost use Rattle.meaning.specs.Refusals.{good_set};
ghost use Rattle.read_record.specs.Seen.{seen};
ghost use Rattle.read_key.specs.Symbols.{limits_of};

use read_record::key::Key;

// "Key paths stand shorter first, equal lengths by bytes"
pub fn before(p: &[u8], q: &[u8]) -> bool
    ensures { result ≡ before_path p.now q.now }
{
    p.len() < q.len() || p.len() == q.len() && p < q
}

// ".., none twice": each stands before the next
#[tactic(auto, unfolding(meaning::specs::Lists::ascending))]
pub fn in_order(key: &Key) -> bool
    ensures { result ≡ ascending (seen key.now).paths }
{
    let mut paths = key.paths();
    let Some(mut last) = paths.next() else {
        return true;
    };
    for path in paths {
        if !before(last, path) {
            return false;
        }
        last = path;
    }
    true
}

pub fn good_set(key: &Key, most: usize) -> bool
    ensures { result ≡ good_set (limits_of 0 0 most) (seen key.now) }
{
    let n = key.count();
    1 <= n && n <= most && in_order(key)
}
