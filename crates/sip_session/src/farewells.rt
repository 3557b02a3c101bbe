//! How the helpers of a panel are let go.

ghost use Rattle.std.specs.Prelude.{◌≡◌, ◌<◌, All, length, None};
ghost use Rattle.sip_session.specs.Links.{talks_of};

use sip_duel::HelperLink;

/// Closes each helper that is left, and drops it. There is a link at least.
pub(crate) fn let_all_go(links: &mut [HelperLink])
    requires { 0 < length links.old }
    ensures gone { All (λ link. link.helper ≡ None) links.new }
    ensures talks { talks_of links.new ≡ talks_of links.old }
    ensures count { length links.new ≡ length links.old }
{
    for place in 0..links.len() {
        links[place].close_and_drop();
    }
}
