//! The table of opcodes and the table of flags, each written once, for every body that goes over them.

/// The table of opcodes, a line a row. `by_opcode!(body!(args))` is `body! { (args) row; row; .. }` over all rows, and
/// `by_opcode!(Read: body!(args))` is `body! { (args) row; }` over the row of READ. A row is
///
/// `"text" Variant { fields } = opcode: [fd] [off] [addr] [len] [flags word] [splice_fd_in] [flags] [fails];`
///
/// where the text is a format of the fields, and a column says what stands there: one value, or a word for the kind of value
/// and the field of `Op` that has it.
///
/// After each row stands the work that the entry asks for, as `(class kind field ..)`: `plain` needs no pipe, `pipe` is done at
/// an end of a pipe, a `timer` is armed, a `cancel` looks for another request. `by_opcode!(op => body!(args))` is a match of an
/// operation by it: the arm of a row is `body!((work) (args))`, that of an Invalid entry `body!((plain invalid) (args))`.
///
/// Then stands its buffer: `[no_buffer]`, `[reads len]` of a reply that comes with data, which lie at the front of `len` bytes, or
/// `[writes len]`. `by_opcode!(buffer of op => body!(args))` is a match by that: the arm of a row is `body!([buffer] (args))`, that of
/// an Invalid entry, whose buffer is not looked at, `body!([any_buffer] (args))`.
///
/// The body has a rule for each class or kind, so that a new one doesn't compile before each body says what it makes of it.
#[macro_export]
macro_rules! by_opcode {
    ($body:ident!($($args:tt)*)) => {
        $crate::by_opcode!(@over all [] $body ($($args)*))
    };
    ($variant:ident: $body:ident!($($args:tt)*)) => {
        $crate::by_opcode!(@row $variant [@all [] [] $body ($($args)*)])
    };

    (@row Nop [$($then:tt)*]) => {
        $crate::by_opcode!($($then)* { "NOP" Nop {} = 0: [none] [zero] [zero] [zero] [zero] [zero] [drain] [negative] } (plain nothing) [no_buffer])
    };
    (@row PollAdd [$($then:tt)*]) => {
        $crate::by_opcode!($($then)* { "POLL_ADD fd {fd} mask {mask}" PollAdd { fd, mask } = 6: [any fd] [zero] [zero] [zero] [mask mask] [zero] [drain] [negative] } (pipe poll fd mask) [no_buffer])
    };
    (@row Timeout [$($then:tt)*]) => {
        $crate::by_opcode!($($then)* { "TIMEOUT ticks {ticks} count {count} etime-ok {etime_success}" Timeout { ticks, etime_success, count } = 11: [none] [completions count] [ticks ticks] [one] [etime etime_success] [zero] [drain] [unless_etime etime_success] } (timer alone ticks) [no_buffer])
    };
    (@row TimeoutRemove [$($then:tt)*]) => {
        $crate::by_opcode!($($then)* { "TIMEOUT_REMOVE target {user_data}" TimeoutRemove { user_data } = 12: [none] [zero] [target user_data] [zero] [zero] [zero] [drain] [negative] } (cancel timer user_data) [no_buffer])
    };
    (@row AsyncCancel [$($then:tt)*]) => {
        $crate::by_opcode!($($then)* { "ASYNC_CANCEL target {user_data}{all}" AsyncCancel { user_data, all } = 14: [none] [zero] [target user_data] [zero] [all all] [zero] [drain] [negative] } (cancel any user_data all) [no_buffer])
    };
    (@row LinkTimeout [$($then:tt)*]) => {
        $crate::by_opcode!($($then)* { "LINK_TIMEOUT ticks {ticks}" LinkTimeout { ticks } = 15: [none] [zero] [ticks ticks] [one] [zero] [zero] [no_drain] [never] } (timer linked ticks) [no_buffer])
    };
    (@row Close [$($then:tt)*]) => {
        $crate::by_opcode!($($then)* { "CLOSE fd {fd}" Close { fd } = 19: [any fd] [zero] [zero] [zero] [zero] [zero] [drain] [negative] } (pipe close fd) [no_buffer])
    };
    (@row Read [$($then:tt)*]) => {
        $crate::by_opcode!($($then)* { "READ fd {fd}{offset} len {len}" Read { fd, offset, len } = 22: [any fd] [place offset] [zero] [count len] [zero] [zero] [drain] [short len] } (pipe read fd len) [reads len])
    };
    (@row Write [$($then:tt)*]) => {
        $crate::by_opcode!($($then)* { "WRITE fd {fd}{offset} len {len}" Write { fd, offset, len } = 23: [any fd] [place offset] [zero] [count len] [zero] [zero] [drain] [short len] } (pipe write fd len) [writes len])
    };
    (@row Splice [$($then:tt)*]) => {
        $crate::by_opcode!($($then)* { "SPLICE fd-in {fd_in} fd-out {fd_out} len {len}" Splice { fd_in, fd_out, len } = 30: [any fd_out] [current] [current] [count len] [zero] [any fd_in] [drain] [short len] } (pipe splice fd_in fd_out len) [no_buffer])
    };

    (@over $walk:tt $($then:tt)*) => {
        $crate::by_opcode!(@$walk [Nop PollAdd Timeout TimeoutRemove AsyncCancel LinkTimeout Close Read Write Splice] $($then)*)
    };

    (@all [$($rest:ident)*] [$($rows:tt)*] $body:ident ($($args:tt)*) { $($row:tt)* } $work:tt $buffer:tt) => {
        $crate::by_opcode!(@all [$($rest)*] [$($rows)* $($row)*;] $body ($($args)*))
    };
    (@all [$next:ident $($rest:ident)*] [$($rows:tt)*] $body:ident ($($args:tt)*)) => {
        $crate::by_opcode!(@row $next [@all [$($rest)*] [$($rows)*] $body ($($args)*)])
    };
    (@all [] [$($rows:tt)*] $body:ident ($($args:tt)*)) => {
        $body! { ($($args)*) $($rows)* }
    };

    (@match [$($rest:ident)*] [$($arms:tt)*] $op:tt $body:ident $args:tt { $text:literal $name:ident $fields:tt = $($columns:tt)* } $work:tt $buffer:tt) => {
        $crate::by_opcode!(@match [$($rest)*] [$($arms)* [$name $fields $work $buffer]] $op $body $args)
    };
    (@match [$next:ident $($rest:ident)*] [$($arms:tt)*] $op:tt $body:ident $args:tt) => {
        $crate::by_opcode!(@row $next [@match [$($rest)*] [$($arms)*] $op $body $args])
    };
    (@match [] [$([$name:ident { $($field:ident),* } $work:tt $buffer:tt])*] (work $op:expr) $body:ident $args:tt) => {
        match $op {
            $($crate::Op::$name { $($field),* } => $body!($work $args),)*
            $crate::Op::Invalid => $body!((plain invalid) $args),
        }
    };
    (@match [] [$([$name:ident { $($field:ident),* } $work:tt $buffer:tt])*] (buffer $op:expr) $body:ident $args:tt) => {
        match $op {
            $($crate::Op::$name { $($field),* } => $body!($buffer $args),)*
            $crate::Op::Invalid => $body!([any_buffer] $args),
        }
    };

    (buffer of $op:expr => $body:ident!$args:tt) => {
        $crate::by_opcode!(@over match [] (buffer $op) $body $args)
    };
    ($op:expr => $body:ident!$args:tt) => {
        $crate::by_opcode!(@over match [] (work $op) $body $args)
    };
}

/// The supported flags, a line a flag: `by_flag!(body!(args))` is `body! { (args) flag; flag; .. }`, where a flag is
/// `CONSTANT = value: " word" [kind];`, in the order of the bits.
#[macro_export]
macro_rules! by_flag {
    ($body:ident!($($args:tt)*)) => {
        $body! { ($($args)*)
            IO_DRAIN = 2: " drain" [drain];
            IO_LINK = 4: " link" [link];
            IO_HARDLINK = 8: " hard" [link];
        }
    };
}
