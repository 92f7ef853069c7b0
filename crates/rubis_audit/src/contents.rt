//! The checks of an entry by its content, against the tables of what stands before it.

ghost use Rattle.std.specs.Prelude.{◌≡◌, nat_le, option_copied};
ghost use Rattle.rubis_message.specs.Message.{dep};
ghost use Rattle.rubis_generate.specs.Decision.{is_ended, item_in, row_by_key};
ghost use Rattle.rubis_audit.specs.Walks as contents;
ghost use Rattle.rubis_audit.specs.Walks.{closed_in, known_in, nick_taken_in, outbid_in, stock_short_in, wrong_category_in, wrong_reference_in};
ghost use Rattle.rubis_audit.specs.Walks.{wrong_winner_in};

use rubis_message::Message;
use rubis_schema::{Id, ItemRow, Nick, Row, RowKey, Sale, View};
use rubis_shadow::Shadow;

/// Whether `v` counts the message with that id.
pub fn is_counted(id: Id, v: &Message) -> bool
    ensures { result ≡ nat_le id.seq (dep v.now id.site) }
{
    let counts = v.deps();
    if id.site < counts.sites() {
        id.seq <= counts.count(id.site)
    } else {
        id.seq == 0
    }
}

// Whether what made the row at that key precedes `v`.
fn is_known<V: View>(view: &V, v: &Message, key: &RowKey) -> bool
    ensures { result ≡ known_in (row_by_key (V.tables view.now)) v.now key.now }
{
    match key {
        RowKey::User(id) | RowKey::Item(id) | RowKey::Bid(id) => {
            view.row(key).is_some() && is_counted(*id, v)
        }
        _ => false,
    }
}

// The item's row.
fn item_row<V: View>(view: &V, item: Id) -> Option<&ItemRow>
    ensures { option_copied result ≡ item_in (row_by_key (V.tables view.now)) item }
{
    match view.row(&RowKey::Item(item)) {
        Some(Row::Item(row)) => Some(row),
        _ => None,
    }
}

// Whether it is a close in another category than its item's.
fn wrong_category<V: View>(view: &V, shadow: &Shadow) -> bool
    ensures { result ≡ wrong_category_in (row_by_key (V.tables view.now)) shadow.now }
{
    match shadow {
        Shadow::Close(close) => match item_row(view, close.item) {
            Some(row) => row.cat != close.cat,
            None => false,
        },
        _ => false,
    }
}

/// Whether what `v` names isn't there or doesn't precede it, or its category is wrong.
pub fn wrong_reference<V: View>(view: &V, v: &Message) -> bool
    ensures { result ≡ wrong_reference_in (row_by_key (V.tables view.now)) v.now }
{
    v.shadow().refers().any(|key| !is_known(view, v, &key)) || wrong_category(view, v.shadow())
}

// Whether the user's row has the nickname.
fn shows_nick<V: View>(view: &V, user: Id, nick: Nick) -> bool
    ensures { result ≡ contents.shows_nick (row_by_key (V.tables view.now)) user nick }
{
    match view.row(&RowKey::User(user)) {
        Some(Row::User(row)) => nick == row.nick,
        _ => false,
    }
}

/// Whether the new nickname has a user, or the old one isn't that of its user.
pub fn nick_taken<V: View>(view: &V, shadow: &Shadow) -> bool
    ensures { result ≡ nick_taken_in (row_by_key (V.tables view.now)) shadow.now }
{
    match shadow {
        Shadow::User(nick) => view.row(&RowKey::Nick(*nick)).is_some(),
        Shadow::Rename(rename) => {
            view.row(&RowKey::Nick(rename.to())).is_some()
                || !shows_nick(view, rename.user(), rename.from())
        }
        _ => false,
    }
}

/// Whether more is bought than there is.
pub fn stock_short<V: View>(view: &V, shadow: &Shadow) -> bool
    ensures { result ≡ stock_short_in (row_by_key (V.tables view.now)) shadow.now }
{
    match shadow {
        Shadow::Buy(purchase) => match item_row(view, purchase.item) {
            Some(row) => row.stock < purchase.quantity,
            None => false,
        },
        _ => false,
    }
}

// Whether the sale is over.
fn is_over(sale: &Sale) -> bool
    ensures { result ≡ is_ended sale.now }
{
    match sale {
        Sale::Open => false,
        Sale::Ended(_) => true,
    }
}

// Whether the item's sale is over.
fn is_closed<V: View>(view: &V, item: Id) -> bool
    ensures { result ≡ closed_in (row_by_key (V.tables view.now)) item }
{
    match item_row(view, item) {
        Some(row) => is_over(&row.sale),
        None => false,
    }
}

// Whether the item's highest bid is another one.
fn is_outbid<V: View>(view: &V, item: Id, winner: Option<Id>) -> bool
    ensures { result ≡ outbid_in (row_by_key (V.tables view.now)) item winner }
{
    match item_row(view, item) {
        Some(row) => winner != row.best.map(|best| best.bid),
        None => false,
    }
}

/// Whether the item of a bid, a buy or a close is closed, or a close names another than the item's highest bid. What is
/// named is there.
pub fn wrong_winner<V: View>(view: &V, shadow: &Shadow) -> bool
    ensures { result ≡ wrong_winner_in (row_by_key (V.tables view.now)) shadow.now }
{
    match shadow {
        Shadow::Bid(bid) => is_closed(view, bid.item),
        Shadow::Buy(purchase) => is_closed(view, purchase.item),
        Shadow::Close(close) => {
            is_closed(view, close.item) || is_outbid(view, close.item, close.winner)
        }
        _ => false,
    }
}
