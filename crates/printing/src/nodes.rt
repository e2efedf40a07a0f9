//! Nodes as text. Each function gives the place behind what it wrote; what a node names stands behind it in the sheet, so that fewer nodes are left
//! at each call.
ghost use Rattle.std.specs.Prelude.{◌≡◌};
ghost use Rattle.node.specs.Decoding.{node_at};
ghost use Rattle.printing.specs.Saying.{Ready, Standing, Trailing, Tells, Alone, Body, Branch, Rest, Defaults};

use crate::pieces::{
    First, Scope, binders, call, close_mark, comma, each_default, each_open, empty_arrow,
    first_default, front_arrow, on_line, open_mark, or_line, rest_default, test, variable,
};
use node::{Node, node_at};
use report::{bytes, decimal};

/// The node whose record starts at this byte of the sheet.
pub fn record_at(sheet: &[u8], start: u16) -> Node
    ensures { result ≡ node_at sheet.now start }
{
    node_at(sheet, usize::from(start))
}

/// A sheet that is printed: its bytes, where each node's record starts, and a mark for each node that has no case in it.
#[derive(Clone, Copy, Debug, PartialEq, Eq)]
pub struct Source<'a> {
    pub sheet: &'a [u8],
    pub table: [u16; 200],
    pub plain: [bool; 200],
}

impl Source<'_> {
    // The node n.
    #[cycle(say)]
    fn say(&self, n: usize, scope: Scope, out: &mut [u8], at: usize) -> usize
        requires { Ready self.now n scope }
        ensures { Tells self.now n (Alone scope) at out.old out.new result }
    {
        let node = record_at(self.sheet, self.table[n]);
        match node {
            Node::Var(x) => variable(scope, x, out, at),
            Node::False => bytes(out, at, b"false"),
            Node::True => bytes(out, at, b"true"),
            Node::Empty => bytes(out, at, b"[]"),
            Node::Number(v) => decimal(out, at, usize::from(v)),
            Node::Front { .. } => self.front(n, node, scope, out, at),
            Node::Pair { .. } => self.pair(n, node, scope, out, at),
            Node::ListCase { .. } => self.list_case(n, node, scope, out, at),
            Node::TruthCase { .. } => self.truth_case(n, node, scope, out, at),
            Node::Split { .. } => self.split(n, node, scope, out, at),
            Node::Call {
                section,
                first,
                second,
            } => call(section, first, second, scope, out, at),
            Node::Add { .. } => self.add(n, node, scope, out, at),
            Node::Each { .. } => self.each(n, node, scope, out, at),
            Node::Wide(v) => decimal(out, at, v as usize),
        }
    }

    // A list whose first member is known.
    #[cycle(say)]
    fn front(&self, n: usize, node: Node, scope: Scope, out: &mut [u8], at: usize) -> usize
        requires { Standing self.now n scope node 0x15 }
        ensures { Tells self.now n (Alone scope) at out.old out.new result }
    {
        let Node::Front { first, rest } = node else {
            return at;
        };
        let flat = self.plain[n];
        let mut inner = scope;
        inner.indent += 2;
        let mut end = open_mark(flat, b'[', out, at);
        end = self.say(first, inner, out, end);
        self.list_rest(rest, flat, scope, out, end)
    }

    // The node n as the rest of a list, behind a member; `flat` where the list has no case in it.
    #[cycle(say)]
    fn list_rest(&self, n: usize, flat: bool, scope: Scope, out: &mut [u8], at: usize) -> usize
        requires { Trailing self.now n scope }
        ensures { Tells self.now n (Rest flat scope) at out.old out.new result }
    {
        let node = record_at(self.sheet, self.table[n]);
        let mut inner = scope;
        inner.indent += 2;
        match node {
            Node::Empty => close_mark(flat, b']', out, at),
            Node::Front { first, rest } => {
                let mut end = comma(flat, scope.indent, out, at);
                end = self.say(first, inner, out, end);
                self.list_rest(rest, flat, scope, out, end)
            }
            _ => {
                let mut end = or_line(flat, b" ", scope.indent, out, at);
                end = bytes(out, end, b"| ");
                end = self.say(n, inner, out, end);
                close_mark(flat, b']', out, end)
            }
        }
    }

    // A pair.
    #[cycle(say)]
    fn pair(&self, n: usize, node: Node, scope: Scope, out: &mut [u8], at: usize) -> usize
        requires { Standing self.now n scope node 0x16 }
        ensures { Tells self.now n (Alone scope) at out.old out.new result }
    {
        let Node::Pair { left, right } = node else {
            return at;
        };
        let flat = self.plain[n];
        let mut inner = scope;
        inner.indent += 2;
        let mut end = open_mark(flat, b'(', out, at);
        end = self.say(left, inner, out, end);
        end = comma(flat, scope.indent, out, end);
        end = self.say(right, inner, out, end);
        close_mark(flat, b')', out, end)
    }

    // The node n behind an arrow or an `=`: on the same line, or on lines of its own.
    #[cycle(say)]
    pub fn body(&self, n: usize, scope: Scope, out: &mut [u8], at: usize) -> usize
        requires { Ready self.now n scope }
        ensures { Tells self.now n (Body scope) at out.old out.new result }
    {
        let end = or_line(self.plain[n], b" ", scope.indent, out, at);
        self.say(n, scope, out, end)
    }

    // The same, with a test behind it.
    #[cycle(say)]
    fn branch(&self, n: usize, t: u8, scope: Scope, out: &mut [u8], at: usize) -> usize
        requires { Ready self.now n scope }
        ensures { Tells self.now n (Branch scope t) at out.old out.new result }
    {
        let end = self.body(n, scope, out, at);
        test(t, out, end)
    }

    // A case on a list.
    #[cycle(say)]
    fn list_case(&self, n: usize, node: Node, scope: Scope, out: &mut [u8], at: usize) -> usize
        requires { Standing self.now n scope node 0x17 }
        ensures { Tells self.now n (Alone scope) at out.old out.new result }
    {
        let Node::ListCase {
            subject,
            empty,
            empty_test,
            front,
            front_test,
            ..
        } = node
        else {
            return at;
        };
        let mut inner = scope;
        inner.indent += 2;
        let mut under = scope;
        under.indent += 4;
        let mut wide = under;
        wide.count += 2;
        let mut end = bytes(out, at, b"case ");
        end = self.say(subject, inner, out, end);
        end = empty_arrow(scope, out, end);
        end = self.branch(empty, empty_test, under, out, end);
        end = front_arrow(scope, out, end);
        end = self.branch(front, front_test, wide, out, end);
        self.defaults(n, node, scope, out, end)
    }

    // The two defaults of a case on a list, and its end.
    #[cycle(say)]
    fn defaults(&self, n: usize, node: Node, scope: Scope, out: &mut [u8], at: usize) -> usize
        requires { Standing self.now n scope node 0x17 }
        ensures { Tells self.now n (Defaults scope node) at out.old out.new result }
    {
        let Node::ListCase { first, rest, .. } = node else {
            return at;
        };
        let sent = Scope {
            count: 1,
            first: First::Sent,
            indent: scope.indent + 6,
        };
        let mut end = first_default(scope, out, at);
        end = self.body(first, sent, out, end);
        end = rest_default(scope, out, end);
        end = self.body(rest, sent, out, end);
        on_line(scope.indent, b"end", out, end)
    }

    // A case on a truth.
    #[cycle(say)]
    fn truth_case(&self, n: usize, node: Node, scope: Scope, out: &mut [u8], at: usize) -> usize
        requires { Standing self.now n scope node 0x18 }
        ensures { Tells self.now n (Alone scope) at out.old out.new result }
    {
        let Node::TruthCase {
            subject,
            no,
            no_test,
            yes,
            yes_test,
        } = node
        else {
            return at;
        };
        let mut inner = scope;
        inner.indent += 2;
        let mut under = scope;
        under.indent += 4;
        let mut end = bytes(out, at, b"case ");
        end = self.say(subject, inner, out, end);
        end = bytes(out, end, b" of");
        end = on_line(scope.indent + 2, b"false ->", out, end);
        end = self.branch(no, no_test, under, out, end);
        end = on_line(scope.indent + 2, b"true  ->", out, end);
        end = self.branch(yes, yes_test, under, out, end);
        on_line(scope.indent, b"end", out, end)
    }

    // A `let`.
    #[cycle(say)]
    fn split(&self, n: usize, node: Node, scope: Scope, out: &mut [u8], at: usize) -> usize
        requires { Standing self.now n scope node 0x19 }
        ensures { Tells self.now n (Alone scope) at out.old out.new result }
    {
        let Node::Split { subject, inner } = node else {
            return at;
        };
        let flat = self.plain[n];
        let mut under = scope;
        under.indent += 2;
        let mut wide = scope;
        wide.count += 2;
        let mut end = binders(scope, out, at);
        end = self.say(subject, under, out, end);
        end = bytes(out, end, b" in");
        end = or_line(flat, b" ", scope.indent, out, end);
        self.say(inner, wide, out, end)
    }

    // A sum.
    #[cycle(say)]
    fn add(&self, n: usize, node: Node, scope: Scope, out: &mut [u8], at: usize) -> usize
        requires { Standing self.now n scope node 0x1B }
        ensures { Tells self.now n (Alone scope) at out.old out.new result }
    {
        let Node::Add { node: of, amount } = node else {
            return at;
        };
        let mut end = decimal(out, at, usize::from(amount));
        end = bytes(out, end, b" + ");
        self.say(of, scope, out, end)
    }

    // A call for each member of a list.
    #[cycle(say)]
    fn each(&self, n: usize, node: Node, scope: Scope, out: &mut [u8], at: usize) -> usize
        requires { Standing self.now n scope node 0x1C }
        ensures { Tells self.now n (Alone scope) at out.old out.new result }
    {
        let Node::Each {
            subject,
            section,
            variable,
            default,
        } = node
        else {
            return at;
        };
        let mut inner = scope;
        inner.indent += 2;
        let none = Scope {
            count: 0,
            first: First::A,
            indent: scope.indent + 2,
        };
        let mut end = each_open(section, out, at);
        end = self.say(subject, inner, out, end);
        end = each_default(scope, variable, out, end);
        self.say(default, none, out, end)
    }
}
