// Wish 4: a net in planar_code becomes an order file, with the list of its vertices by point.
#![tactic(auto)]

ghost use Rattle.std.specs.Prelude.{◌≡◌, List, ℕ, ◌+◌, ◌*◌, ◌≤◌, length, IfOk, IfErr};
ghost use Rattle.rules.specs.declared.Style.{Style};
ghost use Rattle.rules.specs.Refusals.{good, refused};
ghost use Rattle.words.specs.Writing.{Stored};
ghost use Rattle.planar_rules.specs.PlanarCode.{net_of, points, order_file, vertex_list, Import, import_of, imported};
ghost use Rattle.planar_reading.specs.Reads.{net_in, Holding};
ghost use Rattle.planar_drawn.specs.Theorem.{Drawable};
ghost use Rattle.planar.specs.Net.{TakenIn};
ghost use Rattle.planar.specs.Outcome.{Fills, Imports};

use answers::{NotImported, Sizes};
use planar_choosing::Row;
use planar_judging::taken;
use planar_numbering::number;
use planar_reading::Net;
use planar_writing::put_both;
use rules::{Answer, Refusal};

// 15, where the net is not taken.
fn judge(net: &Net) -> Answer<()>
    ensures net { (file : List ℕ) → Holding file net.now → IfOk result (λ u. TakenIn file net.now) }
    ensures refusal { (file : List ℕ) → Holding file net.now → IfErr result (λ e. imported file ≡ refused e.refusal e.place) }
{
    if !taken(net) {
        return Err(Refusal::NoNet.at(0));
    }
    Ok(())
}

// Writes the order file and the list of vertices of a net that is taken, where there is room for both.
fn put_net(net: &Net, order: &mut [u8], list: &mut [u8])
    requires { ((file : List ℕ) × TakenIn file net.now) × (10 * (net_in net.now).n ≤ length order.old + 6) × ((net_in net.now).n ≤ length list.old) }
    ensures { Stored order.old 0 (order_file (net_in net.now).n (points (net_in net.now))) order.new ×
        Stored list.old 0 (vertex_list (points (net_in net.now))) list.new }
{
    let points = number(net);
    let by_point = Row::new(points.vertices, usize::from(net.n()));
    put_both(order, list, &points, &by_point);
}

// The same with the test of room: 24 for the order file's buffer, then for the list's.
fn put_fitting(net: &Net, order: &mut [u8], list: &mut [u8]) -> Result<Sizes, NotImported>
    requires { (file : List ℕ) × TakenIn file net.now }
    ensures { Fills (good (import_of (net_in net.now))) order.old list.old order.new list.new result }
{
    let n = usize::from(net.n());
    let size = 10 * n - 6;
    if order.len() < size {
        return Err(NotImported::OrderShort);
    }
    if list.len() < n {
        return Err(NotImported::ListShort);
    }
    put_net(net, order, list);
    Ok(Sizes {
        order: size,
        list: n,
    })
}

// Reads a net in planar_code: its order file into `order`, and into `list` its vertices by point, one byte each.
// The order file is then accepted by `draw` in both styles, and its drawing has the lines of the net.
pub fn import(file: &[u8], order: &mut [u8], list: &mut [u8]) -> Result<Sizes, NotImported>
    ensures imports { Imports file.now order.old list.old order.new list.new result }
    ensures drawable { (τ : Style) (i : Import) → imported file.now ≡ good i → Drawable τ (net_of file.now) i.order }
{
    let net = Net::read(file)?;
    judge(&net)?;
    put_fitting(&net, order, list)
}
