// What can be done with any directory, proved from the meaning alone.

#![tactic(auto)]

ghost use Rattle.std.specs.Prelude.{◌≡◌};
ghost use Rattle.directory_client.specs.Clients.{hand_over_answer, handed_over, only_holder};

use directory::Directory;
use message::Refusal;

/// Makes terminal `t` the only holder of record `r`. Where the record or the terminal is not served nothing changes.
pub fn hand_over<D: Directory>(d: &mut D, r: usize, t: usize) -> Result<(), Refusal>
    ensures answer { result ≡ hand_over_answer (D.Directory.view d.old) r t }
    ensures after { D.Directory.view d.new ≡ handed_over (D.Directory.view d.old) r t }
{
    d.check_served(r, t)?;
    d.clear(r)?;
    d.add(r, t)
}

/// The one holder of record `r`, or none where there are more or fewer.
pub fn only_holder<D: Directory>(d: &D, r: usize) -> Option<usize>
    ensures answer { result ≡ only_holder (D.Directory.view d.now) r }
{
    if d.count(r) == 1 { d.next(r, 0) } else { None }
}
