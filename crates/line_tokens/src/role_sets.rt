//! Sets of roles: the tests that the tables of spaces, breaks and joined lines are made of.

ghost use Rattle.std.specs.Prelude.{◌≡◌};
ghost use Rattle.line_tokens.specs.Roles.{is_own, is_trailing, is_ctrl_open, is_cast_close, is_ctrl_close};
ghost use Rattle.line_tokens.specs.Roles.{is_list_open, is_list_close, is_block_open, is_block_close, is_decl_open};
ghost use Rattle.line_tokens.specs.Roles.{is_pointer, is_binary, is_assign, is_comma, is_decl_name, is_member};
ghost use Rattle.line_tokens.specs.Roles.{is_asm_colon, is_round_close, is_bracket_open, is_bracket_close};
ghost use Rattle.line_tokens.specs.Roles.{is_call_or_decl_open, is_ctrl_or_group_open, is_comma_or_semi};
ghost use Rattle.line_tokens.specs.Roles.{is_inner_or_stray, is_unary_or_prefix, is_member_or_desig_dot, is_ternary};

use crate::role::Role;

impl Role {
    /// `Own`.
    pub fn is_own(self) -> bool
        ensures { result ≡ is_own self }
    {
        matches!(self, Role::Own)
    }

    /// `Trailing`.
    pub fn is_trailing(self) -> bool
        ensures { result ≡ is_trailing self }
    {
        matches!(self, Role::Trailing)
    }

    /// `CtrlOpen`.
    pub fn is_ctrl_open(self) -> bool
        ensures { result ≡ is_ctrl_open self }
    {
        matches!(self, Role::CtrlOpen)
    }

    /// `CastClose`.
    pub fn is_cast_close(self) -> bool
        ensures { result ≡ is_cast_close self }
    {
        matches!(self, Role::CastClose)
    }

    /// `CtrlClose`.
    pub fn is_ctrl_close(self) -> bool
        ensures { result ≡ is_ctrl_close self }
    {
        matches!(self, Role::CtrlClose)
    }

    /// `ListOpen`.
    pub fn is_list_open(self) -> bool
        ensures { result ≡ is_list_open self }
    {
        matches!(self, Role::ListOpen)
    }

    /// `ListClose`.
    pub fn is_list_close(self) -> bool
        ensures { result ≡ is_list_close self }
    {
        matches!(self, Role::ListClose)
    }

    /// `BlockOpen`.
    pub fn is_block_open(self) -> bool
        ensures { result ≡ is_block_open self }
    {
        matches!(self, Role::BlockOpen)
    }

    /// `BlockClose`.
    pub fn is_block_close(self) -> bool
        ensures { result ≡ is_block_close self }
    {
        matches!(self, Role::BlockClose)
    }

    /// `DeclOpen`.
    pub fn is_decl_open(self) -> bool
        ensures { result ≡ is_decl_open self }
    {
        matches!(self, Role::DeclOpen)
    }

    /// `Pointer`.
    pub fn is_pointer(self) -> bool
        ensures { result ≡ is_pointer self }
    {
        matches!(self, Role::Pointer)
    }

    /// `Binary`.
    pub fn is_binary(self) -> bool
        ensures { result ≡ is_binary self }
    {
        matches!(self, Role::Binary)
    }

    /// `Assign`.
    pub fn is_assign(self) -> bool
        ensures { result ≡ is_assign self }
    {
        matches!(self, Role::Assign)
    }

    /// `Comma`.
    pub fn is_comma(self) -> bool
        ensures { result ≡ is_comma self }
    {
        matches!(self, Role::Comma)
    }

    /// `DeclName`.
    pub fn is_decl_name(self) -> bool
        ensures { result ≡ is_decl_name self }
    {
        matches!(self, Role::DeclName)
    }

    /// `Member`.
    pub fn is_member(self) -> bool
        ensures { result ≡ is_member self }
    {
        matches!(self, Role::Member)
    }

    /// `AsmColon`.
    pub fn is_asm_colon(self) -> bool
        ensures { result ≡ is_asm_colon self }
    {
        matches!(self, Role::AsmColon)
    }

    /// A `)`.
    pub fn is_round_close(self) -> bool
        ensures { result ≡ is_round_close self }
    {
        matches!(
            self,
            Role::CtrlClose | Role::CallClose | Role::CastClose | Role::DeclClose | Role::GroupClose
        )
    }

    /// A `(` or a `[`.
    pub fn is_bracket_open(self) -> bool
        ensures { result ≡ is_bracket_open self }
    {
        matches!(
            self,
            Role::CtrlOpen
                | Role::CallOpen
                | Role::CastOpen
                | Role::DeclOpen
                | Role::GroupOpen
                | Role::IndexOpen
                | Role::DesigOpen
        )
    }

    /// A `)` or a `]`.
    pub fn is_bracket_close(self) -> bool
        ensures { result ≡ is_bracket_close self }
    {
        matches!(
            self,
            Role::CtrlClose
                | Role::CallClose
                | Role::CastClose
                | Role::DeclClose
                | Role::GroupClose
                | Role::IndexClose
                | Role::DesigClose
        )
    }

    /// The `(` of a call or of a declared function.
    pub fn is_call_or_decl_open(self) -> bool
        ensures { result ≡ is_call_or_decl_open self }
    {
        matches!(self, Role::CallOpen | Role::DeclOpen)
    }

    /// The `(` of a header, or one of no other role.
    pub fn is_ctrl_or_group_open(self) -> bool
        ensures { result ≡ is_ctrl_or_group_open self }
    {
        matches!(self, Role::CtrlOpen | Role::GroupOpen)
    }

    /// A `,` or a `;`.
    pub fn is_comma_or_semi(self) -> bool
        ensures { result ≡ is_comma_or_semi self }
    {
        matches!(self, Role::Comma | Role::Semi)
    }

    /// A comment inside a line, or what is no token of C.
    pub fn is_inner_or_stray(self) -> bool
        ensures { result ≡ is_inner_or_stray self }
    {
        matches!(self, Role::Inner | Role::Stray)
    }

    /// An operator before its only operand.
    pub fn is_unary_or_prefix(self) -> bool
        ensures { result ≡ is_unary_or_prefix self }
    {
        matches!(self, Role::Unary | Role::Prefix)
    }

    /// The operator before a member or a designator.
    pub fn is_member_or_desig_dot(self) -> bool
        ensures { result ≡ is_member_or_desig_dot self }
    {
        matches!(self, Role::Member | Role::DesigDot)
    }

    /// The `?` or the `:` of a conditional.
    pub fn is_ternary(self) -> bool
        ensures { result ≡ is_ternary self }
    {
        matches!(self, Role::Question | Role::TernColon)
    }
}
